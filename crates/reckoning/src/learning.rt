//! What the producers of a house know of its history, put together. What they put and heard is not looked at here.

ghost use Rattle.std.specs.Prelude.{◌≡◌, All, vec_len};
ghost use mathlib.Core.List.{IsPrefix};
ghost use Rattle.house_history.specs.Legal.{Legal};
ghost use Rattle.reckoning.specs.Histories.{IsKnownIn};
ghost use Rattle.reckoning.specs.inner.Histories.{HasSentAll, IsKnown};

use house_history::{Front, Naming};
use lane_work::Worked;

// The front has then what each producer knows of the history.
fn teach_all<B: Naming>(worked: &[Worked<B>], front: &mut Front<B>)
    ensures before { IsPrefix front.old front.new }
    ensures each { All (IsKnown front.new) worked.now }
    ensures legal { Legal front.new }
{
    front.is_legal();
    for number in 0..worked.len() {
        worked[number].dispatch.teach(front);
    }
}

// No producer has sent more by this front than by what it knows itself, where all of that is known there.
fn have_sent_all<B: Naming>(worked: &mut Vec<Worked<B>>, front: &Front<B>)
    ensures same { (worked.new.items ≡ worked.old.items)
        × (vec_len worked.new ≡ vec_len worked.old) }
    ensures each { All (HasSentAll front.now) worked.old.items }
{
    for number in 0..worked.len() {
        worked[number].dispatch.has_sent_all(front);
    }
}

/// The front has then what each producer knows of the history, and no producer has sent more by it. The producers are as they were.
pub fn learn_all<B: Naming>(worked: &mut Vec<Worked<B>>, front: &mut Front<B>)
    ensures same { (worked.new.items ≡ worked.old.items)
        × (vec_len worked.new ≡ vec_len worked.old) }
    ensures before { IsPrefix front.old front.new }
    ensures legal { Legal front.new }
    ensures each { All (IsKnownIn front.new) worked.old.items }
{
    teach_all(worked, front);
    have_sent_all(worked, front);
}
