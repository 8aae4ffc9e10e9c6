// Examples and edges.
use super::held::Notice;
use sources::{Current, YearEnd};
use std::alloc::Global;
use std::process::Abort;
use std::test::Fail;

// The text is refused at this line and field.
fn refused(rt: &impl Abort, heap: Global, text: &[u8], line: u32, field: u32) -> Result<(), Fail> {
    match Notice::read(heap, text)?.check() {
        Ok(()) => Err("it was not refused".into()),
        Err(refusal) => {
            assert_eq!(rt; refusal.fault(), Some((line, field)));
            Ok(())
        },
    }
}

#[test]
fn a_last_line_without_its_end(rt: HostRuntime) -> Result<(), Fail> {
    let heap = rt.alloc();
    refused(&rt, heap, b"Q,20200101,450000", 1, 3)?;
    refused(&rt, heap, b"Q,20200101,x", 1, 3)?;
    refused(&rt, heap, b"Q,2020,450000", 1, 2)?;
    refused(&rt, heap, b"Q,20200101", 1, 2)?;
    refused(&rt, heap, b"Q", 1, 1)?;
    refused(&rt, heap, b"P,202001,1,", 1, 4)?;
    refused(&rt, heap, b"P,202001,1,,", 1, 4)?;
    refused(&rt, heap, b"F,2020,0,1", 1, 4)?;
    refused(&rt, heap, b"F,2020,0", 1, 3)?;
    refused(&rt, heap, b"Q,20200101,0\nP,202001,1", 2, 3)
}

#[test]
fn a_text_of_at_most_so_many_bytes(rt: HostRuntime) -> Result<(), Fail> {
    let heap = rt.alloc();
    let longest = vec![in heap; b'x'; 65_536]?;
    refused(&rt, heap, longest.as_slice(), 1, 1)?;
    let longer = vec![in heap; b'x'; 65_537]?;
    refused(&rt, heap, longer.as_slice(), 0, 0)
}

// The final quota and market price that a notice tells of a year.
fn pair_of(notice: &Notice, year: u16) -> Option<(u32, u32)> {
    let figures = notice.closing_of(year)?;
    Some((figures.quota, figures.price))
}

#[test]
fn what_a_notice_tells(rt: HostRuntime) -> Result<(), Fail> {
    let text = b"Q,20190105,5\nP,201902,7\nF,2020,8,9\nQ,20190201,6\nP,201904,10\nF,2022,11,12\n";
    let notice = Notice::read(rt.alloc(), text)?;
    assert_eq!(rt; notice.quota_on(4), None);
    assert_eq!(rt; notice.quota_on(5), Some(5));
    assert_eq!(rt; notice.quota_on(31), Some(5));
    assert_eq!(rt; notice.quota_on(32), Some(6));
    assert_eq!(rt; notice.quota_on(23_376), Some(6));
    assert_eq!(rt; notice.price_of(1), None);
    assert_eq!(rt; notice.price_of(2), Some(7));
    assert_eq!(rt; notice.price_of(3), None);
    assert_eq!(rt; notice.price_of(4), Some(10));
    assert_eq!(rt; pair_of(&notice, 2020), Some((8, 9)));
    assert_eq!(rt; pair_of(&notice, 2021), None);
    assert_eq!(rt; pair_of(&notice, 2022), Some((11, 12)));
    Ok(())
}

#[test]
fn a_faulty_notice_is_silent(rt: HostRuntime) -> Result<(), Fail> {
    let notice = Notice::read(rt.alloc(), b"Q,20190101,5\nP,201901,7\nF,2019,8,9\n\n")?;
    assert!(rt; notice.check().is_err());
    assert_eq!(rt; notice.quota_on(1), None);
    assert_eq!(rt; notice.price_of(1), None);
    assert_eq!(rt; pair_of(&notice, 2019), None);
    Ok(())
}
