ghost use Rattle.std.specs.Prelude.{◌≡◌, map};
ghost use Rattle.commands.specs.Commands.{keywords, named};

// The word that begins a command.
#[derive(Clone, Copy)]
pub(crate) enum Keyword {
    Setup,
    Enrol,
    Register,
    Hour,
    Quota,
    Price,
    Final,
    Forget,
    Board,
    Notice,
    Issue,
    Balance,
    Lines,
    Intervals,
}

const KEYWORDS: [(&[u8], Keyword); 14] = [
    (b"setup", Keyword::Setup),
    (b"enrol", Keyword::Enrol),
    (b"register", Keyword::Register),
    (b"hour", Keyword::Hour),
    (b"quota", Keyword::Quota),
    (b"price", Keyword::Price),
    (b"final", Keyword::Final),
    (b"forget", Keyword::Forget),
    (b"board", Keyword::Board),
    (b"notice", Keyword::Notice),
    (b"issue", Keyword::Issue),
    (b"balance", Keyword::Balance),
    (b"lines", Keyword::Lines),
    (b"intervals", Keyword::Intervals),
];

// What stands beside a word in a table of words, if it is there.
#[tactic(auto, using(crate::proofs::Naming::named_step))]
pub(crate) fn named<A: Copy>(table: &[(&[u8], A)], word: &[u8]) -> Option<A>
    ensures { result ≡ named (map (λ r. (r.0.now, r.1)) table.now) word.now }
{
    for (name, value) in table {
        if word == *name {
            return Some(*value);
        }
    }
    None
}

// The keyword that a word is, if it is one.
pub(crate) fn read_keyword(word: &[u8]) -> Option<Keyword>
    ensures { result ≡ named keywords word.now }
{
    named(&KEYWORDS, word)
}
