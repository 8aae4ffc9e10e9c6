// Examples and edges.
use crate::command::{Beginning, Command, IndexReading, MeterField};
use crate::reading::{is_passed_over, read_command};
use crate::vocabulary::Vocabulary;
use std::process::Abort;

fn check_bad(rt: &impl Abort, line: &[u8]) {
    assert!(rt; read_command(line).is_none());
}

#[test]
fn setup_is_read(rt: HostRuntime) {
    assert_eq!(rt;
        read_command(b"setup,2020,1,512,512,16"),
        Some(Command::Setup(Beginning {
            year: 2020,
            line: 1,
            intervals: 512,
            lines: 512,
            lots: 16,
        }))
    );
    assert_eq!(rt;
        read_command(b"setup,70000,4294967295,16385,65537,4097"),
        Some(Command::Setup(Beginning {
            year: 65_535,
            line: 4_294_967_295,
            intervals: 16_384,
            lines: 65_536,
            lots: 4_096,
        }))
    );
    check_bad(&rt, b"setup,2020,4294967296,512,512,16");
    check_bad(&rt, b"setup,2020,1,512,512");
    check_bad(&rt, b"setup,2020,1,512,512,16,");
    check_bad(&rt, b"setup,02020,1,512,512,16");
}

#[test]
fn enrol_is_read(rt: HostRuntime) {
    let enrol = Command::Enrol {
        place: 7,
        percent: 0,
        first: 366,
        last: 23_376,
    };
    let cut = Command::Enrol {
        place: 65_535,
        percent: 255,
        first: 0,
        last: 0,
    };
    assert_eq!(rt; read_command(b"enrol,7,0,20200101,20821231"), Some(enrol));
    assert_eq!(rt;
        read_command(b"enrol,70000,300,20200230,20830101"),
        Some(cut)
    );
    check_bad(&rt, b"enrol,7,0,20200101");
    check_bad(&rt, b"enrol,7,0,2020011,20821231");
    check_bad(&rt, b"enrol,7,,20200101,20821231");
    check_bad(&rt, b"enrol,7,0,20200101,20821231,1");
}

#[test]
fn figures_are_read(rt: HostRuntime) {
    assert_eq!(rt;
        read_command(b"quota,20200101,450000"),
        Some(Command::Quota {
            day: 366,
            quota: 450_000
        })
    );
    assert_eq!(rt;
        read_command(b"price,202001,1395000"),
        Some(Command::Price {
            month: 13,
            price: 1_395_000
        })
    );
    assert_eq!(rt;
        read_command(b"price,209912,1"),
        Some(Command::Price { month: 0, price: 1 })
    );
    assert_eq!(rt;
        read_command(b"final,2020,440000,1395000"),
        Some(Command::Final {
            year: 2020,
            quota: 440_000,
            price: 1_395_000
        })
    );
    assert_eq!(rt;
        read_command(b"forget,70000"),
        Some(Command::Forget { year: 65_535 })
    );
    check_bad(&rt, b"quota,20200101");
    check_bad(&rt, b"quota,20200101,0450000");
    check_bad(&rt, b"quota,20200101,4294967296");
    check_bad(&rt, b"price,2020011,1395000");
    check_bad(&rt, b"price,202001,");
    check_bad(&rt, b"price,202001,1,1");
    check_bad(&rt, b"final,2020,440000");
    check_bad(&rt, b"final,2020,440000,1,1");
    check_bad(&rt, b"forget");
    check_bad(&rt, b"forget,02020");
}

#[test]
fn registers_are_named(rt: HostRuntime) {
    assert_eq!(rt;
        read_command(b"register,0,2020"),
        Some(Command::Register { id: 0, year: 2020 })
    );
    assert_eq!(rt;
        read_command(b"register,15,70000"),
        Some(Command::Register {
            id: 15,
            year: 65_535
        })
    );
    assert_eq!(rt;
        read_command(b"hour,15,20200101,300,10000"),
        Some(Command::Hour {
            id: 15,
            day: 366,
            hour: 255,
            kwh: 10_000
        })
    );
    assert_eq!(rt;
        read_command(b"hour,0,20190101,0,4294967295"),
        Some(Command::Hour {
            id: 0,
            day: 1,
            hour: 0,
            kwh: 4_294_967_295
        })
    );
    check_bad(&rt, b"register,16,2020");
    check_bad(&rt, b"register,271,2020");
    check_bad(&rt, b"register,15");
    check_bad(&rt, b"register,015,2020");
    check_bad(&rt, b"hour,16,20200101,0,1");
    check_bad(&rt, b"hour,0,20200101,0");
    check_bad(&rt, b"hour,0,20200101,0,1,1");
}

#[test]
fn issue_is_read(rt: HostRuntime) {
    assert_eq!(rt;
        read_command(b"issue,7,20200101,20200131,20200210,index,20200101,20200131,0,1000"),
        Some(Command::Issue {
            place: 7,
            first: 366,
            last: 396,
            issued: 406,
            meter: MeterField::Index(IndexReading {
                first: 366,
                last: 396,
                before: 0,
                after: 1_000
            })
        })
    );
    assert_eq!(rt;
        read_command(b"issue,7,20200101,20200131,20200210,register,9"),
        Some(Command::Issue {
            place: 7,
            first: 366,
            last: 396,
            issued: 406,
            meter: MeterField::Register(9)
        })
    );
    check_bad(
        &rt,
        b"issue,7,20200101,20200131,20200210,index,20200101,20200131,0",
    );
    check_bad(
        &rt,
        b"issue,7,20200101,20200131,20200210,index,20200101,20200131,0,1000,0",
    );
    check_bad(
        &rt,
        b"issue,7,20200101,20200131,20200210,meter,20200101,20200131,0,1000",
    );
    check_bad(&rt, b"issue,7,20200101,20200131,20200210,register");
    check_bad(&rt, b"issue,7,20200101,20200131,20200210,register,16");
    check_bad(&rt, b"issue,7,20200101,20200131,20200210,register,9,");
    check_bad(&rt, b"issue,7,20200101,20200131,20200210");
}

#[test]
fn what_asks_for_text_is_read(rt: HostRuntime) {
    let balance = Command::Balance {
        place: 7,
        year: 2020,
    };
    let cut = Command::Balance {
        place: 65_535,
        year: 65_535,
    };
    assert_eq!(rt; read_command(b"balance,7,2020"), Some(balance));
    assert_eq!(rt; read_command(b"balance,65536,70000"), Some(cut));
    assert_eq!(rt; read_command(b"lines"), Some(Command::Lines));
    assert_eq!(rt; read_command(b"intervals"), Some(Command::Intervals));
    check_bad(&rt, b"balance,7");
    check_bad(&rt, b"balance,7,2020,");
    check_bad(&rt, b"lines,");
    check_bad(&rt, b"Lines");
    check_bad(&rt, b" lines");
    check_bad(&rt, b"");
    check_bad(&rt, b",");
    check_bad(&rt, b"\xff\xfe,7");
    check_bad(&rt, b"balance,\xff,2020");
}

#[test]
fn billing_has_commands_of_its_own(rt: HostRuntime) {
    let board = b"board";
    assert_eq!(rt; Vocabulary::Whole.read(board), Some(Command::Board));
    assert_eq!(rt; Vocabulary::Billing.read(board), None);
    assert_eq!(rt; Vocabulary::Billing.read(b"lines"), Some(Command::Lines));
    let by_register = b"issue,7,20200101,20200131,20200210,register,9";
    assert!(rt; Vocabulary::Whole.read(by_register).is_some());
    assert_eq!(rt; Vocabulary::Billing.read(by_register), None);
    assert_eq!(rt;
        Vocabulary::Billing.read(b"final,2020,440000,1395000"),
        None
    );
}

#[test]
fn empty_lines_and_remarks_are_passed_over(rt: HostRuntime) {
    assert!(rt; is_passed_over(b""));
    assert!(rt; is_passed_over(b"#"));
    assert!(rt; is_passed_over(b"# lines"));
    assert!(rt; !is_passed_over(b" #"));
    assert!(rt; !is_passed_over(b"lines"));
}
