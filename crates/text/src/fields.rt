// The fields of a line, taken one by one.
ghost use Rattle.std.specs.Prelude.{◌≡◌, None, MatchOption, Result};
ghost use Rattle.std.specs.Option.{option_map};
ghost use Rattle.std.specs.Result.{result_ok};
ghost use Rattle.std.specs.Str.{bytes_eq};
ghost use Rattle.text.specs.Numbers.{number};
ghost use Rattle.text.specs.Pieces.{fields};
ghost use Rattle.text.specs.Taken.{after_next, is_none, left, next_of, read_next};

use crate::numbers::read_number;
use crate::pieces::cut_at;

// What is left of a line: a field begins there, or none where the last was taken.
#[derive(Clone, Copy)]
pub struct Fields<'a> {
    rest: Option<&'a [u8]>,
}

// A number as one of another type, if it fits there.
fn narrowed<T: TryFrom<u32>>(number: u32) -> Option<T>
where
    T::Error: Drop,
    ensures { (r : Result T T.Error) × T.try_from_gives number r × (result ≡ result_ok r) }
{
    T::try_from(number).ok()
}

impl<'a> Fields<'a> {
    // All fields of a line.
    pub fn of(line: &'a [u8]) -> Fields<'a>
        ensures { left result ≡ fields line.now }
    {
        Fields { rest: Some(line) }
    }

    // The next field, if one is left.
    #[tactic(auto, using(crate::proofs::Cutting::fields_step))]
    pub fn next_field(&mut self) -> Option<&'a [u8]>
        ensures value { option_map (λ x. x.now) result ≡ next_of (left self.old) }
        ensures after { left self.new ≡ after_next (left self.old) }
    {
        let cut = cut_at(self.rest?, b',');
        self.rest = cut.rest;
        Some(cut.front)
    }

    // The number that the next field writes, if one is left and it writes one.
    pub fn next_number(&mut self) -> Option<u32>
        ensures value { result ≡ read_next number (left self.old) }
        ensures after { left self.new ≡ after_next (left self.old) }
    {
        read_number(self.next_field()?)
    }

    // The same as a number of another type, if it fits there.
    pub fn next_as<T: TryFrom<u32>>(&mut self) -> Option<T>
    where
        T::Error: Drop,
        ensures value { MatchOption (read_next number (left self.old)) (result ≡ None) (λ n. (r : Result T T.Error) × T.try_from_gives n r × (result ≡ result_ok r)) }
        ensures after { left self.new ≡ after_next (left self.old) }
    {
        narrowed(self.next_number()?)
    }

    // Whether no field is left.
    #[tactic(auto, using(crate::proofs::Cutting::none_left))]
    pub fn at_end(&self) -> bool
        ensures { result ≡ is_none (left self.now) }
    {
        self.rest.is_none()
    }
}

// Whether the text is the word, byte by byte: a name for `==`, with a clause that readers of words cite.
pub fn is_word(text: &[u8], word: &[u8]) -> bool
    ensures { result ≡ bytes_eq text.now word.now }
{
    text == word
}
