// Commands of an office, and what is written for them.
use super::respond;
use commands::Command;
use journal::Journal;
use office::Office;
use std::test::Fail;

const ANSWERS: &[u8] = b"1,ok
2,bad
3,ok,0
";

// Of the IDs 15 and 16 an office has a register for the first.
#[test]
fn sixteen_ids_have_a_register(rt: HostRuntime) -> Result<(), Fail> {
    let mut office = Office::new(Journal::setup(&mut [], &mut [], 2020, 1));
    let mut out = Vec::new(rt.alloc());
    let last = Command::Register { id: 15, year: 2020 };
    respond(&mut out, &mut office, 1, last)?;
    let beyond = Command::Register { id: 16, year: 2020 };
    respond(&mut out, &mut office, 2, beyond)?;
    respond(&mut out, &mut office, 3, Command::Lines)?;
    assert_eq!(rt; out.as_slice(), ANSWERS);
    Ok(())
}
