// A text cut at a byte.
ghost use Rattle.std.specs.Prelude.{◌≡◌, ◌<◌, ◌==◌, length, position, IfSome};
ghost use Rattle.std.specs.Option.{option_map};
ghost use Rattle.text.specs.Pieces.{after, before, CutsMakeTheText, FieldsMakeTheLine, LinesMakeTheText};
ghost use Rattle.text.specs.Taken.{ToldLinesAreTheLines};

// The first place of `byte`, where the text has it.
pub fn find_byte(text: &[u8], byte: u8) -> Option<usize>
    ensures place { result ≡ position (λ c. c == byte) text.now }
    ensures within { IfSome result (λ at. at < length text.now) }
{
    text.iter().position(|c| *c == byte)
}

// A text, cut at the first place of a byte.
#[derive(Clone, Copy)]
pub struct Cut<'a> {
    pub front: &'a [u8],
    // What follows the byte, where the text has it.
    pub rest: Option<&'a [u8]>,
}

// The text before the first `byte`, and what follows it.
#[tactic(auto, using(crate::proofs::Cutting::before_is, crate::proofs::Cutting::after_is))]
pub fn cut_at(text: &[u8], byte: u8) -> Cut<'_>
    ensures front { result.front.now ≡ before byte text.now }
    ensures rest { option_map (λ x. x.now) result.rest ≡ after byte text.now }
{
    match find_byte(text, byte) {
        Some(at) => Cut {
            front: &text[..at],
            rest: Some(&text[at + 1..]),
        },
        None => Cut {
            front: text,
            rest: None,
        },
    }
}

// Cuts, fields and lines lose nothing of the text, and add nothing to it.
pub fn pieces_make_the_text()
    ensures cuts { CutsMakeTheText }
    ensures fields { FieldsMakeTheLine }
    ensures lines { LinesMakeTheText }
    ensures told { ToldLinesAreTheLines }
{}
