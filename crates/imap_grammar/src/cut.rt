//! Texts, cut at the first of some byte. What stands on either side is read elsewhere.
//! The definition is specs/Cuts.antt.

ghost use Rattle.std.specs.Prelude.{◌≡◌, ◌<◌, ◌==◌, length, IfSome, position};
ghost use Rattle.std.specs.Option.{option_map};
ghost use Rattle.imap_grammar.specs.Cuts.{cut_at};

/// The position of the first such byte.
fn position_of(byte: u8, text: &[u8]) -> Option<usize>
    ensures value { result ≡ position (λ x. x == byte) text.now }
    ensures bound { IfSome result (λ n. n < length text.now) }
{
    text.iter().position(|b| *b == byte)
}

/// The bytes before the first such byte, and those behind it.
pub fn cut_at(byte: u8, text: &[u8]) -> Option<(&[u8], &[u8])>
    ensures value { option_map (λ x. (x.0.now, x.1.now)) result ≡ cut_at byte text.now }
    ensures shorter { IfSome result (λ x. length x.1.now < length text.now) }
{
    match position_of(byte, text) {
        None => None,
        Some(n) => Some((&text[..n], &text[n + 1..])),
    }
}
