//! Numbers, as digits say them, up to a greatest one.
//! Which numbers may stand where is told in `set` and `items`.

ghost use Rattle.std.specs.Prelude.{◌≡◌, ◌≤◌, IfSome, min, true};
ghost use Rattle.std.specs.List.{list_all};
ghost use Rattle.imap_grammar.specs.Bytes.{is_digit};
ghost use Rattle.imap_grammar.specs.Numbers.{most_size, number_of, number_up_to};

use crate::bytes::{Class, is_of};

/// The number that one digit or more say, if it is at most this.
#[tactic(auto, using(crate::proofs::Numbers::number_step, crate::proofs::Numbers::digits_step, crate::proofs::Numbers::too_great))]
pub fn number_up_to(most: u64, text: &[u8]) -> Option<u64>
    ensures value { result ≡ number_up_to most text.now }
    ensures bound { IfSome result (λ n. n ≤ most) }
{
    if text.is_empty() {
        return None;
    }
    let mut n: u128 = 0;
    for b in text {
        if !is_of(Class::Digit, *b) {
            return None;
        }
        n = n * 10 + (*b - b'0') as u128;
        if n > most as u128 {
            return None;
        }
    }
    Some(n as u64)
}

/// The number that digits say, or the greatest of 64 bits where they say more.
#[tactic(auto, using(crate::proofs::Numbers::digits_step))]
pub fn capped_number(digits: &[u8]) -> u64
    requires digits { list_all is_digit digits.now ≡ true }
    ensures { result ≡ min (number_of digits.now) most_size }
{
    let mut n: u64 = 0;
    for b in digits {
        n = n.saturating_mul(10).saturating_add((*b - b'0') as u64);
    }
    n
}
