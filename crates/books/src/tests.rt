use super::{Book, Dated, Enrolment, Full, Roll};
use amounts::Refusal;

#[derive(Clone, Copy, PartialEq, Debug)]
struct Note {
    year: u16,
    mark: u8,
}

impl Dated for Note {
    ghost dates = { λ n. n.year };

    fn year(&self) -> u16 {
        self.year
    }
}

fn dated(year: u16, mark: u8) -> Note {
    Note { year, mark }
}

#[test]
fn garbage_is_no_record(rt: HostRuntime) {
    let mut storage = [dated(2019, 9); 3];
    let book = Book::new(&mut storage, 5);
    assert_eq!(rt; book.len(), 0);
    assert_eq!(rt; book.room(), 3);
    assert_eq!(rt; book.free(), 3);
    assert_eq!(rt; book.at(0), None);
}

#[test]
fn a_full_book_refuses_and_keeps(rt: HostRuntime) {
    let mut storage = [dated(2019, 9); 3];
    let mut book = Book::new(&mut storage, 2);
    assert_eq!(rt; book.enter(dated(2020, 1)), Ok(()));
    assert_eq!(rt; book.enter(dated(2021, 2)), Ok(()));
    assert!(rt; book.is_full());
    assert_eq!(rt; book.enter(dated(2022, 3)), Err(Full));
    assert_eq!(rt; book.len(), 2);
    assert_eq!(rt; book.free(), 0);
    assert_eq!(rt; book.at(1), Some(dated(2021, 2)));
    assert_eq!(rt; book.at(2), None);
}

#[test]
fn strike_keeps_the_order(rt: HostRuntime) {
    let mut storage = [dated(2019, 9); 4];
    let mut book = Book::new(&mut storage, 4);
    assert_eq!(rt; book.enter(dated(2020, 1)), Ok(()));
    assert_eq!(rt; book.enter(dated(2021, 2)), Ok(()));
    assert_eq!(rt; book.enter(dated(2020, 3)), Ok(()));
    assert_eq!(rt; book.enter(dated(2022, 4)), Ok(()));
    assert_eq!(rt; book.find(2020, 0), Some(0));
    assert_eq!(rt; book.find(2020, 1), Some(2));
    assert_eq!(rt; book.find(2020, 3), None);
    book.strike(2020);
    assert_eq!(rt; book.len(), 2);
    assert_eq!(rt; book.at(0), Some(dated(2021, 2)));
    assert_eq!(rt; book.at(1), Some(dated(2022, 4)));
}

#[test]
fn records_by_position(rt: HostRuntime) {
    let mut storage = [dated(2019, 9); 4];
    let mut book = Book::new(&mut storage, 4);
    assert_eq!(rt; book.enter(dated(2020, 1)), Ok(()));
    assert_eq!(rt; book.at(1), None);
    assert_eq!(rt; book.at(0), Some(dated(2020, 1)));
    assert_eq!(rt; book.replace(1, dated(2021, 2)), None);
    assert_eq!(rt; book.replace(0, dated(2021, 2)), Some(dated(2020, 1)));
    assert_eq!(rt; book.len(), 1);
    assert_eq!(rt; book.at(0), Some(dated(2021, 2)));
}

#[test]
fn what_the_roll_refuses(rt: HostRuntime) {
    let mut roll = Roll::new();
    assert_eq!(rt; roll.enrol(0, 100, 1, 1), Err(Refusal::NoPlace));
    assert_eq!(rt; roll.enrol(251, 101, 2, 1), Err(Refusal::NoPlace));
    assert_eq!(rt; roll.enrol(1, 101, 2, 1), Err(Refusal::BadDay));
    assert_eq!(rt; roll.enrol(1, 100, 0, 1), Err(Refusal::BadDay));
    assert_eq!(rt; roll.enrol(1, 100, 1, 23_377), Err(Refusal::BadDay));
    assert_eq!(rt; roll.enrol(1, 101, 1, 2), Err(Refusal::BadPercent));
    assert_eq!(rt; roll.enrolment(1), None);
}

#[test]
fn the_places_of_the_roll(rt: HostRuntime) {
    let mut roll = Roll::new();
    assert_eq!(rt; roll.enrol(1, 100, 1, 23_376), Ok(()));
    assert_eq!(rt; roll.enrol(250, 40, 10, 20), Ok(()));
    assert_eq!(rt; roll.enrolment(0), None);
    assert_eq!(rt; roll.enrolment(2), None);
    assert_eq!(rt; roll.enrolment(251), None);
    assert_eq!(rt; roll.enrol(1, 0, 5, 5), Ok(()));
    let first = Enrolment {
        percent: 0,
        first: 5,
        last: 5,
    };
    assert_eq!(rt; roll.enrolment(1), Some(first));
    let last = Enrolment {
        percent: 40,
        first: 10,
        last: 20,
    };
    assert_eq!(rt; roll.enrolment(250), Some(last));
}

#[test]
fn a_percent_lasts_from_first_to_last(rt: HostRuntime) {
    let it = Enrolment {
        percent: 40,
        first: 10,
        last: 20,
    };
    assert_eq!(rt; it.percent_on(9), 0);
    assert_eq!(rt; it.percent_on(10), 40);
    assert_eq!(rt; it.percent_on(20), 40);
    assert_eq!(rt; it.percent_on(21), 0);
}
