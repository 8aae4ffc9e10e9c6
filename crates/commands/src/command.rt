// Two indexes of a meter: before its first day, and after its last. Commands know nothing of meters, which take these four.
#[derive(Clone, Copy, PartialEq, Debug)]
pub struct IndexReading {
    pub first: u16,
    pub last: u16,
    pub before: u32,
    pub after: u32,
}

// The meter that a line names.
#[derive(Clone, Copy, PartialEq, Debug)]
pub enum MeterField {
    Index(IndexReading),
    // The hourly register that is kept under an ID, 0 to 15.
    Register(u8),
}

// How a set of books begins: its first year and line number, and how many records of each kind it has room for.
#[derive(Clone, Copy, PartialEq, Debug)]
pub struct Beginning {
    pub year: u16,
    pub line: u32,
    pub intervals: u32,
    pub lines: u32,
    pub lots: u32,
}

// What a line of the log asks for. Day 0 and month 0 are none of the calendar.
#[derive(Clone, Copy, PartialEq, Debug)]
pub enum Command {
    // A new set of books.
    Setup(Beginning),
    Enrol {
        place: u16,
        percent: u8,
        first: u16,
        last: u16,
    },
    Quota {
        day: u16,
        quota: u32,
    },
    Price {
        month: u16,
        price: u32,
    },
    // The final quota and the market price of a year.
    Final {
        year: u16,
        quota: u32,
        price: u32,
    },
    // The board forgets what lies before the year.
    Forget {
        year: u16,
    },
    // The board is the source from here on.
    Board,
    // The next lines of the log are a notice, which is the source from here on.
    Notice {
        lines: u32,
    },
    // A new hourly register, kept under an ID.
    Register {
        id: u8,
        year: u16,
    },
    // An hour is read into the register of an ID.
    Hour {
        id: u8,
        day: u16,
        hour: u8,
        kwh: u32,
    },
    // A supply's fields, one by one: commands know nothing of rules.
    Issue {
        place: u16,
        first: u16,
        last: u16,
        issued: u16,
        meter: MeterField,
    },
    Balance {
        place: u16,
        year: u16,
    },
    Lines,
    Intervals,
}
