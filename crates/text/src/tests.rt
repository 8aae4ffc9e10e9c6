// Examples and edges.
use crate::fields::{Fields, is_word};
use crate::lines::Lines;
use crate::numbers::read_number;
use crate::pieces::{cut_at, find_byte};
use crate::writing::push_shown;
use std::test::Fail;

#[test]
fn numbers_that_are_read(rt: HostRuntime) {
    assert_eq!(rt; read_number(b"0"), Some(0));
    assert_eq!(rt; read_number(b"907"), Some(907));
    assert_eq!(rt; read_number(b"4294967295"), Some(4_294_967_295));
}

#[test]
fn what_is_no_number(rt: HostRuntime) {
    assert_eq!(rt; read_number(b""), None);
    assert_eq!(rt; read_number(b"00"), None);
    assert_eq!(rt; read_number(b"01"), None);
    assert_eq!(rt; read_number(b"4294967296"), None);
    assert_eq!(rt;
        read_number(b"12345678901234567890123456789012345678901234567890"),
        None
    );
    assert_eq!(rt; read_number(b"a"), None);
    assert_eq!(rt; read_number(b"1a"), None);
    assert_eq!(rt; read_number(b"+1"), None);
    assert_eq!(rt; read_number(b"-1"), None);
    assert_eq!(rt; read_number(b"1 "), None);
    assert_eq!(rt; read_number(b"1\x00"), None);
    assert_eq!(rt; read_number(b"\xff"), None);
}

#[test]
fn empty_fields_and_a_trailing_comma(rt: HostRuntime) -> Result<(), Fail> {
    let mut fields = Fields::of(b"pay,,7,");
    assert!(rt; is_word(fields.next_field().ok_or("word")?, b"pay"));
    assert!(rt; is_word(fields.next_field().ok_or("empty")?, b""));
    assert_eq!(rt; fields.next_number(), Some(7));
    assert!(rt; !fields.at_end());
    assert!(rt; is_word(fields.next_field().ok_or("last")?, b""));
    assert!(rt; fields.at_end());
    assert!(rt; fields.next_field().is_none());
    Ok(())
}

#[test]
fn a_line_with_no_comma(rt: HostRuntime) {
    let mut fields = Fields::of(b"65536");
    assert_eq!(rt; fields.next_number(), Some(65_536));
    assert!(rt; fields.at_end());
    assert_eq!(rt; fields.next_as::<u16>(), None);
    assert_eq!(rt; Fields::of(b"65536").next_as::<u16>(), None);
    assert_eq!(rt; Fields::of(b"65535").next_as::<u16>(), Some(65_535));
    assert_eq!(rt; Fields::of(b"256").next_as::<u8>(), None);
    assert_eq!(rt; Fields::of(b"255").next_as::<u8>(), Some(255));
    assert!(rt; !Fields::of(b"").at_end());
}

#[test]
fn lines_with_and_without_an_end(rt: HostRuntime) -> Result<(), Fail> {
    let mut lines = Lines::of(b"a\n\nb");
    assert!(rt; is_word(lines.next().ok_or("first")?.text, b"a"));
    assert!(rt; is_word(lines.next().ok_or("empty")?.text, b""));
    assert!(rt; is_word(lines.next().ok_or("last")?.text, b"b"));
    assert!(rt; lines.next().is_none());
    let mut ended = Lines::of(b"a\n");
    assert!(rt; ended.next().is_some());
    assert!(rt; ended.next().is_none());
    assert!(rt; Lines::of(b"").next().is_none());
    Ok(())
}

#[test]
fn a_text_is_cut(rt: HostRuntime) -> Result<(), Fail> {
    assert_eq!(rt; find_byte(b"ab\n", b'\n'), Some(2));
    assert_eq!(rt; find_byte(b"ab", b'\n'), None);
    assert!(rt; cut_at(b"ab", b'\n').rest.is_none());
    assert!(rt; is_word(cut_at(b"ab\ncd", b'\n').rest.ok_or("rest")?, b"cd"));
    assert!(rt; !is_word(b"ab", b"abc"));
    Ok(())
}

#[test]
fn numbers_are_written(rt: HostRuntime) -> Result<(), Fail> {
    let mut out = Vec::new(rt.alloc());
    push_shown(&mut out, 0_u64)?;
    push_shown(&mut out, ",")?;
    push_shown(&mut out, u64::MAX)?;
    push_shown(&mut out, ",")?;
    push_shown(&mut out, -10_i128)?;
    push_shown(&mut out, ",")?;
    push_shown(&mut out, i128::from(i64::MIN))?;
    assert!(rt; out.as_slice() == b"0,18446744073709551615,-10,-9223372036854775808".as_slice());
    Ok(())
}
