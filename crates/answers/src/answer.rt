ghost use Rattle.std.specs.Prelude.{◌≡◌, Some};
ghost use Rattle.text.specs.Pieces.{with_commas};
ghost use Rattle.answers.specs.Answers.{answer_words, numbered, plainly};

use amounts::Refusal;
use std::fmt;

// What a command is answered. One enum and no Result: it is what is written, and a Result can have no `Display` of ours.
#[derive(Clone, Copy)]
pub enum Answer {
    Taken,
    // Taken, with a result that is never below 0: the number of an interval, or how many records follow.
    Number(u64),
    // Taken, with a result that has a sign.
    Amount(i128),
    Refused(Refusal),
    // The line was no command, or named what there is not.
    Bad,
}

// The answer of a call without a result.
impl From<Result<(), Refusal>> for Answer {
    ghost from_gives = { λ res answer. answer ≡ plainly res };

    fn from(res: Result<(), Refusal>) -> Answer {
        match res {
            Ok(()) => Answer::Taken,
            Err(refusal) => Answer::Refused(refusal),
        }
    }
}

// The answer of a call that gives a number: apart from the other, since only here a number is written.
impl From<Result<u32, Refusal>> for Answer {
    ghost from_gives = { λ res answer. answer ≡ numbered res };

    fn from(res: Result<u32, Refusal>) -> Answer {
        match res {
            Ok(number) => Answer::Number(u64::from(number)),
            Err(refusal) => Answer::Refused(refusal),
        }
    }
}

impl fmt::Display for Answer {
    ghost output = { λ answer. Some (with_commas (answer_words answer)) };

    fn fmt<W: fmt::Write>(&self, f: &mut fmt::Formatter<W>) -> fmt::Result {
        match self {
            Answer::Taken => write!(f, "ok"),
            Answer::Number(result) => write!(f, "ok,{result}"),
            Answer::Amount(result) => write!(f, "ok,{result}"),
            Answer::Refused(why) => {
                let number = why.number();
                match why.fault() {
                    None => write!(f, "refused,{number}"),
                    Some((line, field)) => write!(f, "refused,{number},{line},{field}"),
                }
            }
            Answer::Bad => write!(f, "bad"),
        }
    }
}
