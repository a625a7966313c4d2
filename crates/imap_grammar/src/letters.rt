//! Letters at the front of a text, in upper or lower case.
//! Words of several letters are for `name`.

ghost use Rattle.std.specs.Prelude.{◌≡◌};
ghost use Rattle.std.specs.Option.{option_copied, option_map};
ghost use Rattle.imap_grammar.specs.Contains.{ends_line, unfolded};
ghost use Rattle.imap_grammar.specs.inner.Letters.{past_letter};
ghost use Rattle.imap_grammar.specs.inner.Searching.{searched};

/// What a search does with the CR and LF bytes of a text.
#[derive(Clone, Copy)]
pub(crate) enum Folds {
    Kept,
    Dropped,
}

/// What follows a byte, which may be of the other case.
pub(crate) fn past_letter(b: u8, text: &[u8]) -> Option<&[u8]>
    ensures { option_copied result ≡ past_letter b text.now }
{
    match text {
        [first, rest @ ..] if b.to_ascii_lowercase() == first.to_ascii_lowercase() => Some(rest),
        _ => None,
    }
}

fn ends_line(b: u8) -> bool
    ensures { result ≡ ends_line b }
{
    b == b'\r' || b == b'\n'
}

// The same of a text whose CR and LF bytes are passed over.
#[tactic(auto, using(crate::proofs::Searching::unfolded_step, crate::proofs::Searching::letter_unfolded))]
fn past_unfolded(b: u8, text: &[u8]) -> Option<&[u8]>
    ensures { option_map unfolded (option_copied result) ≡ past_letter b (unfolded text.now) }
{
    for (i, first) in text.iter().enumerate() {
        if !ends_line(*first) {
            return past_letter(b, &text[i..]);
        }
    }
    None
}

/// What follows a byte, which may be of the other case, in a text that is searched.
pub(crate) fn past_letter_of(folds: Folds, b: u8, text: &[u8]) -> Option<&[u8]>
    ensures { option_map (searched folds) (option_copied result)
        ≡ past_letter b (searched folds text.now) }
{
    match folds {
        Folds::Kept => past_letter(b, text),
        Folds::Dropped => past_unfolded(b, text),
    }
}
