//! Texts in which brackets keep together what stands within them: where such a text is cut, and its words.
//! The definition is specs/Brackets.antt. What the words say is read elsewhere.

ghost use Rattle.std.specs.Prelude.{◌≡◌, ◌≤◌, ◌<◌, ◌∷◌, [], false, IfNone, IfSome, length};
ghost use Rattle.imap_grammar.specs.Brackets.{in_bracket, outside_len, item_words, item_word_at};

use envelope::after_spaces;

// Whether a bracket is open behind this byte.
fn in_bracket(within: bool, b: u8) -> bool
    ensures { result ≡ in_bracket within b }
{
    if within { b != b']' } else { b == b'[' }
}

/// How many bytes stand before the first such byte outside of brackets, or all.
#[tactic(auto, using(crate::proofs::Steps::outside_step))]
pub fn outside_len(byte: u8, text: &[u8]) -> usize
    ensures value { result ≡ outside_len byte false text.now }
    ensures bound { result ≤ length text.now }
{
    let mut within = false;
    for (i, b) in text.iter().enumerate() {
        if !within && *b == byte {
            return i;
        }
        within = in_bracket(within, *b);
    }
    text.len()
}

/// What stands before the first space outside of brackets, and the rest.
pub fn item_word_at(bytes: &[u8]) -> (&[u8], &[u8])
    ensures word { result.0.now ≡ (item_word_at bytes.now).0 }
    ensures rest { result.1.now ≡ (item_word_at bytes.now).1 }
{
    bytes.split_at(outside_len(b' ', bytes))
}

/// The first word, and what follows it.
#[tactic(auto, using(crate::proofs::ItemWords::no_item, crate::proofs::ItemWords::one_item, crate::proofs::ItemWords::item_rest_shorter))]
pub fn next_item_word(text: &[u8]) -> Option<(&[u8], &[u8])>
    // The first of the text's words, and what follows, which has the others and is shorter; None where there is no word.
    ensures first { IfSome result (λ x. item_words text.now ≡ x.0.now ∷ item_words x.1.now) }
    ensures shorter { IfSome result (λ x. length x.1.now < length text.now) }
    ensures none { IfNone result (item_words text.now ≡ []) }
{
    let start = after_spaces(text);
    if start.is_empty() {
        return None;
    }
    Some(item_word_at(start))
}
