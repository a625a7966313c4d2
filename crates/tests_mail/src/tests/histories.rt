//! A history of meetings, of which nobody is at more than two: what each adds, the others learn. No
//! token has a byte.

ghost use Rattle.std.specs.Prelude.{◌≡◌, ℕ, ◌==◌, ◌||◌, ◌≢◌, ◌≤◌, ◌∷◌, [], ◌++◌, length, Contains};
ghost use mathlib.Core.List.{IsPrefix};
ghost use Rattle.std.specs.List.{filter};

use shared_history::{Entry, Owner, Rights, Rule, Seen};
use std::mem::size_of;

// Who invites, and who comes. Whoever is alone is both.
#[derive(Clone, Copy, Debug, PartialEq, Eq)]
struct Meeting {
    host: u64,
    guest: u64,
}

struct AtMostTwo;

impl Rule<Meeting> for AtMostTwo {
    ghost use Rattle.std.specs.Prelude.{◌==◌, ◌||◌, ◌≤◌, ℕ, length};
    ghost use Rattle.std.specs.List.{filter};

    ghost holds = { λ log. (k : ℕ) → length (filter (λ m. (k == m.host) || (k == m.guest)) log) ≤ 2 };

    ghost concerns = { λ k m. (k == m.host) || (k == m.guest) };
}

struct Meets;

impl Entry<Meeting, Meeting> for Meets {
    ghost entry = { λ m. m };
}

type Known = Seen<Meeting, AtMostTwo>;

type Person = Owner<Meeting, AtMostTwo>;

// A first meeting with nobody else.
fn alone(person: &mut Person, known: &mut Known, meeting: &Meeting)
    requires book { known.old.book ≡ person.old.book }
    requires self_alone { (meeting.now.host ≡ person.old.key)
        × (meeting.now.guest ≡ person.old.key) }
    requires first { person.old.own ≡ [] }
    ensures person { (person.new.book ≡ person.old.book) × (person.new.key ≡ person.old.key)
        × (person.new.own ≡ meeting.now ∷ []) }
    ensures book { known.new.book ≡ known.old.book }
    ensures before { IsPrefix known.old.log known.new.log }
    ensures added { Contains known.new.log meeting.now }
{
    person.add::<Meeting, Meets>(known, meeting);
}

// A first meeting of two.
fn together(person: &mut Person, other: &mut Person, known: &mut Known, meeting: &Meeting)
    requires books { (known.old.book ≡ person.old.book) × (other.old.book ≡ person.old.book) }
    requires apart { other.old.key ≢ person.old.key }
    requires both { (meeting.now.host ≡ person.old.key) × (meeting.now.guest ≡ other.old.key) }
    requires first { (length person.old.own ≤ 1) × (length other.old.own ≤ 1) }
    ensures books { (known.new.book ≡ known.old.book) × (other.new.book ≡ other.old.book) }
    ensures before { IsPrefix known.old.log known.new.log }
    ensures added { Contains known.new.log meeting.now }
{
    person.add_both::<Meeting, Meets>(other, known, meeting);
}

// Two people have a meeting each, and one together; a thread that saw the first alone learns of all.
// It says what is then known, by the tokens alone.
fn met() -> Known
    ensures alone { Contains result.log (record { host = 0; guest = 0 }) }
    ensures together { Contains result.log (record { host = 0; guest = 1 }) }
    ensures twice { (k : ℕ)
        → length (filter (λ m. (k == m.host) || (k == m.guest)) result.log) ≤ 2 }
{
    let (mut known, mut rights) = Known::open(2);
    let mut first = rights.take();
    let mut rest = rights.divide(1);
    let mut second = rest.take();
    alone(&mut first, &mut known, &Meeting { host: 0, guest: 0 });
    let mut elsewhere = known.again();
    together(
        &mut first,
        &mut second,
        &mut elsewhere,
        &Meeting { host: 0, guest: 1 },
    );
    second.look(&mut elsewhere);
    known.learn(&elsewhere);
    known
}

#[test]
fn no_token_has_a_byte(rt: HostRuntime) {
    assert_eq!(rt; size_of::<Known>(), 0);
    assert_eq!(rt; size_of::<Person>(), 0);
    assert_eq!(rt; size_of::<Rights<Meeting, AtMostTwo>>(), 0);
}

#[test]
fn what_one_adds_another_learns(rt: HostRuntime) {
    let known = met();
    assert_eq!(rt; size_of::<Known>(), 0);
    drop(known);
}
