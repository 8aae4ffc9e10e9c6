// Examples and edges.
use crate::answer::Answer;
use crate::writing::{push_answer, push_end, push_interval, push_line};
use amounts::Refusal;
use parts::{Part, Parts};
use rules::{Interval, Kind, Line, Status};
use std::test::Fail;

#[test]
fn answers_are_written(rt: HostRuntime) -> Result<(), Fail> {
    let faulty = Refusal::FaultyNotice { line: 3, field: 2 };
    let mut out = Vec::new(rt.alloc());
    push_answer(&mut out, 1, Answer::Taken)?;
    push_answer(&mut out, 2, Answer::Number(4_294_967_295))?;
    push_answer(&mut out, 3, Answer::Amount(-6_278))?;
    push_answer(&mut out, 4, Answer::Refused(Refusal::BadFigure))?;
    push_answer(&mut out, 5, Answer::Refused(faulty))?;
    push_answer(&mut out, 6, Answer::Bad)?;
    push_end(&mut out, 0)?;
    assert!(rt;
        out.as_slice()
            == b"1,ok\n2,ok,4294967295\n3,ok,-6278\n4,refused,26\n5,refused,27,3,2\n6,bad\nend,0\n".as_slice()
    );
    Ok(())
}

#[test]
fn a_line_is_written(rt: HostRuntime) -> Result<(), Fail> {
    let line = Line {
        number: 2,
        place: 7,
        year: 2020,
        interval: 1,
        part: 1,
        kind: Kind::TakeBack,
        charged: 1_000,
        value: -6_278,
        takes_back: 1,
    };
    let mut out = Vec::new(rt.alloc());
    push_line(&mut out, &line)?;
    assert!(rt; out.as_slice() == b"2,7,2020,1,1,T,1000,-6278,1\n".as_slice());
    Ok(())
}

#[test]
fn an_interval_is_written(rt: HostRuntime) -> Result<(), Fail> {
    let part = Part {
        first: 366,
        last: 396,
        quota: 450_000,
        percent: 60,
        kwh: 1_000,
        charged: 400,
    };
    let interval = Interval {
        number: 1,
        place: 7,
        year: 2020,
        first: 366,
        last: 0,
        price: 1_395_000,
        price_month: 13,
        status: Status::UnderCorrection,
        parts: Parts {
            count: 1,
            list: [part; 4],
        },
    };
    let mut out = Vec::new(rt.alloc());
    push_interval(&mut out, &interval)?;
    assert!(rt;
        out.as_slice()
            == b"1,7,2020,20200101,00000000,1395000,202001,correction,1,20200101,20200131,450000,60,1000,400\n".as_slice()
    );
    Ok(())
}
