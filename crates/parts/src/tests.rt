use super::cutting::{cut_days, is_silent_within};
use super::pricing::{Priced, latest_price};
use super::{Part, Parts};
use books::Enrolment;
use meters::IndexMeter;
use meters::meter::Meter;
use sources::Board;
use std::test::Fail;

// Exempt by 40 percent from the day on.
fn exempt_from(first: u16) -> Enrolment {
    Enrolment {
        percent: 40,
        first,
        last: 23_376,
    }
}

fn part(first: u16, last: u16, quota: u32, percent: u8) -> Part {
    Part {
        first,
        last,
        quota,
        percent,
        kwh: 0,
        charged: 0,
    }
}

#[test]
fn a_month_in_one_part(rt: HostRuntime) -> Result<(), Fail> {
    let mut board = Board::new();
    board.tell_quota(1, 450_000)?;
    let parts = cut_days(&board, exempt_from(1), 1, 31).unwrap_or(Parts::none());
    assert_eq!(rt; parts.count, 1);
    assert_eq!(rt; parts.list[0], part(1, 31, 450_000, 40));
    assert_eq!(rt; parts.list[1], part(0, 0, 0, 0));
    Ok(())
}

#[test]
fn a_quota_and_an_exemption_begin_inside(rt: HostRuntime) -> Result<(), Fail> {
    let mut board = Board::new();
    board.tell_quota(1, 450_000)?;
    board.tell_quota(11, 460_000)?;
    let parts = cut_days(&board, exempt_from(31), 1, 31).unwrap_or(Parts::none());
    assert_eq!(rt; parts.count, 3);
    assert_eq!(rt; parts.list[0], part(1, 10, 450_000, 0));
    assert_eq!(rt; parts.list[1], part(11, 30, 460_000, 0));
    assert_eq!(rt; parts.list[2], part(31, 31, 460_000, 40));
    Ok(())
}

#[test]
fn two_changes_on_one_day_make_one_cut(rt: HostRuntime) -> Result<(), Fail> {
    let mut board = Board::new();
    board.tell_quota(1, 450_000)?;
    board.tell_quota(11, 460_000)?;
    let parts = cut_days(&board, exempt_from(11), 1, 31).unwrap_or(Parts::none());
    assert_eq!(rt; parts.count, 2);
    assert_eq!(rt; parts.list[0], part(1, 10, 450_000, 0));
    assert_eq!(rt; parts.list[1], part(11, 31, 460_000, 40));
    Ok(())
}

#[test]
fn four_parts_fit_and_five_do_not(rt: HostRuntime) -> Result<(), Fail> {
    let mut board = Board::new();
    for day in 1..6 {
        board.tell_quota(day, u32::from(day))?;
    }
    let parts = cut_days(&board, exempt_from(1), 1, 4).unwrap_or(Parts::none());
    assert_eq!(rt; parts.count, 4);
    assert_eq!(rt; parts.list[3], part(4, 4, 4, 40));
    assert!(rt; cut_days(&board, exempt_from(1), 1, 5).is_none());
    Ok(())
}

#[test]
fn a_silent_day_is_found(rt: HostRuntime) -> Result<(), Fail> {
    let mut board = Board::new();
    board.tell_quota(5, 450_000)?;
    assert!(rt; is_silent_within(&board, 4, 31));
    assert_eq!(rt; is_silent_within(&board, 5, 31), false);
    assert_eq!(rt; is_silent_within(&board, 4, 0), false);
    Ok(())
}

#[test]
fn the_latest_price_of_two_years(rt: HostRuntime) -> Result<(), Fail> {
    let mut board = Board::new();
    board.tell_price(1, 29_000)?;
    board.tell_price(10, 30_000)?;
    let tenth = Some(Priced {
        month: 10,
        price: 30_000,
    });
    assert_eq!(rt; latest_price(&board, 11), tenth);
    assert_eq!(rt; latest_price(&board, 34), tenth);
    assert_eq!(rt; latest_price(&board, 35), None);
    assert_eq!(rt; latest_price(&board, 1), None);
    let first = Some(Priced {
        month: 1,
        price: 29_000,
    });
    assert_eq!(rt; latest_price(&board, 2), first);
    Ok(())
}

#[test]
fn a_hundred_kwh_in_two_parts(rt: HostRuntime) -> Result<(), Fail> {
    let mut board = Board::new();
    board.tell_quota(1, 450_000)?;
    let meter = IndexMeter::new(1, 31, 250, 350)?;
    let cut = cut_days(&board, exempt_from(11), 1, 31).unwrap_or(Parts::none());
    let parts = cut.metered(&meter);
    assert_eq!(rt; parts.list[0].kwh, 32);
    assert_eq!(rt; parts.list[0].charged, 32);
    assert_eq!(rt; parts.list[1].kwh, 68);
    assert_eq!(rt; parts.list[1].charged, 41);
    assert_eq!(rt; parts.kwh(), 100);
    Ok(())
}
