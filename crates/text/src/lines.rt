// The lines of a text, one by one.
ghost use Rattle.std.specs.Prelude.{◌≡◌, ◌<◌, length, is_some, IfSome, MatchOption, OnSome, ⊤, [], ◌∷◌};
ghost use Rattle.std.specs.Iterator.{item_count, MakesProgress, YieldsFirstBy};
ghost use Rattle.text.specs.Pieces.{after, before};
ghost use Rattle.text.specs.Taken.{after_line, lines_left, text_left, told, told_lines};

use crate::pieces::cut_at;

// A line without its end, which is byte 10, and whether it has it: the last of a text may lack it.
#[derive(Clone, Copy)]
pub struct Line<'a> {
    pub text: &'a [u8],
    pub ended: bool,
}

// What is left of a text: a line begins there, unless nothing is left.
#[derive(Clone, Copy)]
pub struct Lines<'a> {
    rest: &'a [u8],
}

// The first line, and what follows it, unless nothing is left.
fn first_line(text: &[u8]) -> Option<(Line<'_>, &[u8])>
    ensures lines { MatchOption result (told_lines text.now ≡ []) (λ p. told_lines text.now ≡ told p.0 ∷ told_lines p.1.now) }
    ensures cut { MatchOption result (length text.now ≡ 0) (λ p. (p.0.text.now ≡ before 10 text.now) × (p.0.ended ≡ is_some (after 10 text.now)) × (p.1.now ≡ after_line text.now)) }
    ensures shorter { IfSome result (λ p. length p.1.now < length text.now) }
{
    if text.is_empty() {
        return None;
    }
    let cut = cut_at(text, b'\n');
    let line = Line {
        text: cut.front,
        ended: cut.rest.is_some(),
    };
    Some((line, cut.rest.unwrap_or(&[])))
}

impl<'a> Lines<'a> {
    // All lines of a text.
    pub fn of(text: &'a [u8]) -> Lines<'a>
        ensures { text_left result ≡ text.now }
    {
        Lines { rest: text }
    }

    // What is left of the text.
    pub fn rest(&self) -> &'a [u8]
        ensures { result.now ≡ text_left self.now }
    {
        self.rest
    }
}

impl<'a> Iterator for Lines<'a> {
    type Item = Line<'a>;

    ghost next_gives = { YieldsFirstBy told lines_left };

    ghost remaining = { item_count lines_left };

    #[tactic(auto, using(crate::proofs::Cutting::empty_after_line))]
    fn next(&mut self) -> Option<Line<'a>>
        ensures steps { YieldsFirstBy told lines_left self.old result self.new }
        ensures goes { MakesProgress (λ _. ⊤) (item_count lines_left) self.old result self.new }
        ensures line { MatchOption result (length (text_left self.old) ≡ 0) (λ l. (l.text.now ≡ before 10 (text_left self.old)) × (l.ended ≡ is_some (after 10 (text_left self.old)))) }
        ensures rest { text_left self.new ≡ after_line (text_left self.old) }
        ensures shorter { OnSome result (length (text_left self.new) < length (text_left self.old)) }
    {
        let (line, rest) = first_line(self.rest)?;
        self.rest = rest;
        Some(line)
    }
}
