ghost use Rattle.std.specs.Prelude.{◌≡◌, ◌+◌, ◌-◌, ◌^◌, ◌<◌, ◌≤◌, OnSome, min, ◌++◌, length, take, if◌then◌else◌, Some, None, nat_eq};
ghost use Rattle.text.specs.Taken.{after_line, text_left};
ghost use Rattle.logs.specs.Logs.{entry_at, entry_of, first_lines};

use commands::{Command, Vocabulary, is_passed_over};
use text::{Line, Lines};

// One line of a log: three cases with names, where an Option in an Option would not say which none it is.
#[derive(Clone, Copy)]
pub enum Entry {
    // An empty line or a remark: it gets no answer.
    PassedOver,
    // No command, or the last line without its byte 10.
    Unreadable,
    Read(Command),
}

// What is left of a log, how many lines were taken, and which commands it may have.
#[derive(Clone, Copy)]
pub struct Log<'a> {
    pub vocabulary: Vocabulary,
    pub lines: Lines<'a>,
    pub line: u64,
}

// How a line is read.
fn read_entry(vocabulary: Vocabulary, line: Line<'_>) -> Entry
    ensures { result ≡ entry_of vocabulary line.entry.text.now line.entry.ended }
{
    if is_passed_over(line.text) {
        return Entry::PassedOver;
    }
    if !line.ended {
        return Entry::Unreadable;
    }
    vocabulary
        .read(line.text)
        .map_or(Entry::Unreadable, Entry::Read)
}

// How many lines are left to take behind a byte.
fn left_behind(left: u32, byte: u8) -> u32
    ensures { result ≡ (if nat_eq byte 10 then left - 1 else left) }
{
    if byte == b'\n' {
        left.saturating_sub(1)
    } else {
        left
    }
}

// Where the first lines of a text end: behind so many bytes 10, or where the text does. By a `filter` and `nth` a count
// of 0, and a text that ends early, would be cases of their own.
fn end_of_lines(text: &[u8], count: u32) -> usize
    ensures within { result ≤ length text.now }
    ensures front { take result text.now ≡ first_lines count text.now }
{
    let mut left = count;
    for (i, byte) in text.iter().enumerate() {
        if left == 0 {
            return i;
        }
        left = left_behind(left, *byte);
    }
    text.len()
}

impl<'a> Log<'a> {
    // A whole log, by the commands of a vocabulary.
    pub fn of(vocabulary: Vocabulary, text: &'a [u8]) -> Log<'a>
        ensures text { text_left result.lines ≡ text.now }
        ensures line { result.line ≡ 0 }
        ensures vocabulary { result.vocabulary ≡ vocabulary }
    {
        Log {
            vocabulary,
            lines: Lines::of(text),
            line: 0,
        }
    }

    // The next line, if one is left.
    pub fn next_entry(&mut self) -> Option<Entry>
        ensures value { result ≡ (if nat_eq (length (text_left self.old.lines)) 0 then None else Some (entry_at self.old.vocabulary (text_left self.old.lines))) }
        ensures rest { text_left self.new.lines ≡ after_line (text_left self.old.lines) }
        ensures line { self.new.line ≡ (if nat_eq (length (text_left self.old.lines)) 0 then self.old.line else min (self.old.line + 1) (2 ^ 64 - 1)) }
        ensures same { self.new.vocabulary ≡ self.old.vocabulary }
        ensures shorter { OnSome result (length (text_left self.new.lines) < length (text_left self.old.lines)) }
    {
        let line = self.lines.next()?;
        self.line = self.line.saturating_add(1);
        Some(read_entry(self.vocabulary, line))
    }

    // Takes so many lines as text, whatever they hold; all that is left where there are fewer.
    // They are counted, and where the log has fewer no line follows that could have a number.
    pub fn take_lines(&mut self, count: u32) -> &'a [u8]
        ensures text { result.now ≡ first_lines count (text_left self.old.lines) }
        ensures rest { result.now ++ text_left self.new.lines ≡ text_left self.old.lines }
        ensures line { self.new.line ≡ min (self.old.line + count) (2 ^ 64 - 1) }
        ensures same { self.new.vocabulary ≡ self.old.vocabulary }
    {
        let all = self.lines.rest();
        let end = end_of_lines(all, count);
        self.line = self.line.saturating_add(u64::from(count));
        self.lines = Lines::of(&all[end..]);
        &all[..end]
    }
}
