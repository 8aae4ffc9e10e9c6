// What the owner of an office does between its commands.
use super::{Office, OfficeOf};
use answers::Answer;
use commands::{Command, IndexReading, MeterField};
use journal::Journal;
use meters::IndexMeter;
use rules::{NO_INTERVAL, NO_LINE, Supply};
use std::test::Fail;

// Place 1 is issued for these days 1,000 kWh by an index meter.
fn issue(first: u16, last: u16, issued: u16) -> Command {
    let reading = IndexReading {
        first,
        last,
        before: 0,
        after: 1_000,
    };
    Command::Issue {
        place: 1,
        first,
        last,
        issued,
        meter: MeterField::Index(reading),
    }
}

// Place 1 is enrolled, and told the quota of 2020 and the price of its January.
fn told(office: &mut Office<'_>) -> bool {
    let enrol = Command::Enrol {
        place: 1,
        percent: 0,
        first: 1,
        last: 23_376,
    };
    let quota = Command::Quota {
        day: 366,
        quota: 450_000,
    };
    let price = Command::Price {
        month: 13,
        price: 1_395_000,
    };
    [enrol, quota, price]
        .iter()
        .all(|command| matches!(office.obey(*command), Answer::Taken))
}

#[test]
fn its_owner_issues_between_commands(rt: HostRuntime) -> Result<(), Fail> {
    let mut intervals = [NO_INTERVAL; 4];
    let mut lines = [NO_LINE; 4];
    let mut office = Office::new(Journal::setup(&mut intervals, &mut lines, 2020, 1));
    assert!(rt; told(&mut office));
    assert!(rt; matches!(office.obey(issue(366, 396, 406)), Answer::Number(1)));
    let Ok(meter) = IndexMeter::new(397, 425, 0, 999) else {
        return Err("no meter".into());
    };
    let february = Supply {
        place: 1,
        first: 397,
        last: 425,
        issued: 435,
    };
    let OfficeOf {
        mut journal,
        roll,
        board,
        registers,
        notice,
    } = office;
    assert_eq!(rt; journal.issue(&roll, &board, &meter, february), Ok(2));
    let mut office = OfficeOf {
        journal,
        roll,
        board,
        registers,
        notice,
    };
    let balance = Command::Balance {
        place: 1,
        year: 2020,
    };
    assert!(rt; matches!(office.obey(balance), Answer::Amount(12_549)));
    Ok(())
}

#[test]
fn books_roll_and_board_go_on_in_another_office(rt: HostRuntime) {
    let mut intervals = [NO_INTERVAL; 4];
    let mut lines = [NO_LINE; 4];
    let mut office = Office::new(Journal::setup(&mut intervals, &mut lines, 2020, 1));
    assert!(rt; told(&mut office));
    assert!(rt; matches!(office.obey(issue(366, 396, 406)), Answer::Number(1)));
    let mut next: Office<'_> = Office::new(office.journal);
    next.roll = office.roll;
    next.board = office.board;
    assert!(rt; matches!(next.obey(issue(366, 396, 406)), Answer::Refused(_)));
    assert!(rt; matches!(next.obey(issue(397, 425, 435)), Answer::Number(2)));
}

// Reads 10 kWh into each of the 24 hours of 1 January 2020.
fn read(office: &mut Office<'_>, id: u8) -> bool {
    (0..24).all(|hour| {
        let reading = Command::Hour {
            id,
            day: 366,
            hour,
            kwh: 10,
        };
        matches!(office.obey(reading), Answer::Taken)
    })
}

#[test]
fn an_office_goes_on_over_other_books(rt: HostRuntime) {
    let mut office = Office::new(Journal::setup(&mut [], &mut [], 2020, 1));
    assert!(rt; told(&mut office));
    let register = Command::Register { id: 15, year: 2020 };
    assert!(rt; matches!(office.obey(register), Answer::Taken));
    assert!(rt; read(&mut office, 15));
    let mut intervals = [NO_INTERVAL; 1];
    let mut lines = [NO_LINE; 1];
    let mut next = OfficeOf {
        journal: Journal::setup(&mut intervals, &mut lines, 2020, 7),
        roll: office.roll,
        board: office.board,
        registers: office.registers,
        notice: office.notice,
    };
    let issue = Command::Issue {
        place: 1,
        first: 366,
        last: 366,
        issued: 406,
        meter: MeterField::Register(15),
    };
    assert!(rt; matches!(next.obey(issue), Answer::Number(7)));
    let balance = Command::Balance {
        place: 1,
        year: 2020,
    };
    assert!(rt; matches!(next.obey(balance), Answer::Amount(1_507)));
}
