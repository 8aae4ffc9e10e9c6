// Numbers as they stand in a text: decimal, with no leading zero.
ghost use Rattle.std.specs.Prelude.{◌≡◌};
ghost use Rattle.text.specs.Numbers.{number, unpadded, ReadsBack, ReadsOnlyWritten};

// Whether there is something to read, with no leading zero but in `0` itself.
fn is_unpadded(text: &[u8]) -> bool
    ensures { result ≡ unpadded text.now }
{
    !matches!(text, [] | [b'0', _, ..])
}

// The number that `text` writes, or none where it is anything else than one of 32 bits.
pub fn read_number(text: &[u8]) -> Option<u32>
    ensures { result ≡ number text.now }
{
    if !is_unpadded(text) {
        return None;
    }
    // `parse` would take a plus.
    if text[0] == b'+' {
        return None;
    }
    std::str::from_utf8(text).ok()?.parse().ok()
}

// The laws that tie reading to writing.
pub fn numbers_read_back()
    ensures back { ReadsBack }
    ensures only { ReadsOnlyWritten }
{}
