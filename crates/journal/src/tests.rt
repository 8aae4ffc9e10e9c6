use super::Journal;
use amounts::Refusal;
use books::Roll;
use meters::IndexMeter;
use rules::{NO_INTERVAL, NO_LINE, Supply};
use sources::Board;

// Bills 1,000 kWh of these days to place 1 on 10 February 2020, at the price of January 2020.
fn bill(journal: &mut Journal<'_>, first: u16, last: u16) -> Result<u32, Refusal> {
    let mut roll = Roll::new();
    roll.enrol(1, 0, 1, 23_376)?;
    let mut board = Board::new();
    board.tell_quota(366, 450_000)?;
    board.tell_price(13, 1_395_000)?;
    let meter = IndexMeter::new(first, last, 0, 1_000)?;
    let supply = Supply {
        place: 1,
        first,
        last,
        issued: 406,
    };
    journal.issue(&roll, &board, &meter, supply)
}

#[test]
fn january_2020_at_its_price(rt: HostRuntime) {
    let mut intervals = [NO_INTERVAL; 2];
    let mut lines = [NO_LINE; 2];
    let mut journal = Journal::setup(&mut intervals, &mut lines, 2020, 1);
    assert_eq!(rt; bill(&mut journal, 366, 396), Ok(1));
    let first = journal.line_at(0).map(|line| (line.number, line.value));
    assert_eq!(rt; first, Some((1, 6_278)));
    assert_eq!(rt; journal.line_count(), 1);
    assert_eq!(rt; journal.balance(1, 2020), 6_278);
    assert_eq!(rt; journal.balance(1, 2021), 0);
}

#[test]
fn a_shared_day_changes_nothing(rt: HostRuntime) {
    let mut intervals = [NO_INTERVAL; 2];
    let mut lines = [NO_LINE; 2];
    let mut journal = Journal::setup(&mut intervals, &mut lines, 2020, 1);
    assert_eq!(rt; bill(&mut journal, 366, 396), Ok(1));
    assert_eq!(rt; bill(&mut journal, 396, 400), Err(Refusal::SharedDay));
    assert_eq!(rt; journal.interval_count(), 1);
    assert_eq!(rt; journal.line_count(), 1);
    assert_eq!(rt; journal.balance(1, 2020), 6_278);
    assert_eq!(rt; bill(&mut journal, 397, 400), Ok(2));
}

#[test]
fn no_room_in_full_storage(rt: HostRuntime) {
    let mut intervals = [NO_INTERVAL; 2];
    let mut lines = [NO_LINE; 1];
    let mut journal = Journal::setup(&mut intervals, &mut lines, 2020, 1);
    assert_eq!(rt; bill(&mut journal, 366, 396), Ok(1));
    assert_eq!(rt; bill(&mut journal, 397, 400), Err(Refusal::NoRoom));
    assert_eq!(rt; journal.interval_count(), 1);
}

#[test]
fn the_last_line_number(rt: HostRuntime) {
    let mut intervals = [NO_INTERVAL; 2];
    let mut lines = [NO_LINE; 2];
    let mut journal = Journal::setup(&mut intervals, &mut lines, 2020, 4_294_967_295);
    assert_eq!(rt; bill(&mut journal, 366, 396), Ok(4_294_967_295));
    assert_eq!(rt; bill(&mut journal, 397, 400), Err(Refusal::NumbersUsedUp));
    assert_eq!(rt; journal.line_count(), 1);
}
