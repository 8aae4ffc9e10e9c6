// Whole logs, from bytes to bytes.
use super::replay;
use commands::Vocabulary;
use std::test::Fail;

// A place is billed for two months, the first in two parts; and a second set of books is asked what it holds.
const LOG: &[u8] = b"setup,2020,1,512,512,16
enrol,3,85,20200111,20201231
quota,20200101,450000
price,202001,1395000
issue,3,20200101,20200131,20200210,index,20200101,20200131,0,100
issue,3,20200131,20200229,20200310,index,20200131,20200229,100,200
issue,3,20200201,20200229,20200310,index,20200201,20200229,200,100
balance,3,2020
lines
# a remark

board
setup,2021,1,512,512,16
lines
intervals";

const ANSWERS: &[u8] = b"1,ok
2,ok
3,ok
4,ok
5,ok,1
6,refused,6
7,refused,20
8,ok,264
9,ok,2
1,3,2020,1,1,E,32,201,0
2,3,2020,1,2,E,10,63,0
12,bad
13,ok
14,ok,0
15,bad
end,0
";

// A notice is the source, and a register the meter: the wider program has both.
const WIDER_LOG: &[u8] = b"notice,2
Q,20200101,450000
P,202001,1395000
register,15,2020
register,16,2020
issue,1,20200101,20200131,20200210,register,15
enrol,1,0,20200101,20201231
issue,1,20200101,20200131,20200210,register,15
issue,1,20200101,20200131,20200210,index,20200101,20200131,0,1000
balance,1,2020
";

const WIDER_ANSWERS: &[u8] = b"1,ok
4,ok
5,bad
6,refused,1
7,ok
8,refused,19
9,ok,1
10,ok,6278
end,0
";

#[test]
fn billing_is_answered(rt: HostRuntime) -> Result<(), Fail> {
    let mut log = LOG;
    let mut answers = Vec::new(rt.alloc());
    replay(rt.alloc(), &mut log, &mut answers, Vocabulary::Billing)?;
    assert_eq!(rt; answers.as_slice(), ANSWERS);
    Ok(())
}

#[test]
fn all_commands_are_answered(rt: HostRuntime) -> Result<(), Fail> {
    let mut log = WIDER_LOG;
    let mut answers = Vec::new(rt.alloc());
    replay(rt.alloc(), &mut log, &mut answers, Vocabulary::Whole)?;
    assert_eq!(rt; answers.as_slice(), WIDER_ANSWERS);
    Ok(())
}
