//! What a thread knows of the history and owns of it.
ghost use Rattle.core.specs.Prelude.{◌≡◌, ℕ, ◌+◌, ◌-◌, ◌<◌, ◌≤◌, ◌≢◌, ◌++◌, ◌∷◌, [], Bool, List, length};
ghost use mathlib.Core.List.{IsPrefix};
ghost use base.Stored.{coded_list};
ghost use denote.Sharing.{said};
ghost use Rattle.shared_history.specs.Pages.{Adds, Book, ConcernsOne, ConcernsTwo, MayFollow, MayFollowBoth, part};
ghost use Rattle.shared_history.specs.inner.Kept.{book_coded, owner_owns, rights_own, rules, seen_owns};

use std::marker::{Model, PhantomData};

/// What holds of a history at any time, and which of its entries concern which owner. Owners are
/// numbered from 0.
pub trait Rule<E> {
    ghost holds: { List E → Type 0 };

    ghost concerns: { ℕ → E → Bool };
}

/// The entry that a value of the caller's stands for. What is added is named by such a value, since
/// an entry need not exist at run time.
pub trait Entry<X, E> {
    ghost entry: { X → E };
}

/// The history begins with `log`. That stays so, whatever is added: it may be copied, and go to any
/// thread.
pub struct Seen<E, P: Rule<E>> {
    marker: PhantomData<(E, P)>,
    pub ghost book: { Book } by { book_coded },
    pub ghost log: { List E } by { coded_list E.code },
}

impl<E, P: Rule<E>> Model for Seen<E, P> {
    ghost also_owns = { λ s. seen_owns E.row.coded.code (rules P.holds P.concerns) s.book s.log };

    ghost also_shares = { λ s _ κ. said
        (seen_owns E.row.coded.code (rules P.holds P.concerns) s.book s.log) κ };
}

/// The right to add what concerns the owner `key`: just `own` stands of that so far. There is one
/// for each owner, and it can't be copied. One that is let go is lost: nothing more is added of it.
pub struct Owner<E, P: Rule<E>> {
    marker: PhantomData<(E, P)>,
    pub ghost book: { Book } by { book_coded },
    pub ghost key: { ℕ },
    pub ghost own: { List E } by { coded_list E.code },
}

impl<E, P: Rule<E>> Model for Owner<E, P> {
    ghost also_owns = { λ o. owner_owns E.row.coded.code o.book o.key o.own };
}

/// The rights of the owners from `next` on, `left` of them, of whom nothing stands yet.
pub struct Rights<E, P: Rule<E>> {
    marker: PhantomData<(E, P)>,
    pub ghost book: { Book } by { book_coded },
    pub ghost next: { ℕ },
    pub ghost left: { ℕ },
}

impl<E, P: Rule<E>> Model for Rights<E, P> {
    ghost also_owns = { λ r. rights_own E.row.coded.code r.book r.next r.left };
}

impl<E, P: Rule<E>> Seen<E, P> {
    /// A new history, which is empty, with `count` owners, and all their rights.
    pub fn open(count: usize) -> (Seen<E, P>, Rights<E, P>)
        requires { P.holds [] }
        ensures log { result.0.log ≡ [] }
        ensures book { result.1.book ≡ result.0.book }
        ensures owners { length result.0.book.owner_names ≡ count }
        ensures rights { (result.1.next ≡ 0) × (result.1.left ≡ count) }
    {
        let _ = count;
        (
            Seen {
                marker: PhantomData,
            },
            Rights {
                marker: PhantomData,
            },
        )
    }

    /// A copy.
    pub fn again(&self) -> Seen<E, P>
        ensures { result ≡ self.now }
    {
        Seen {
            marker: PhantomData,
        }
    }

    /// Afterwards it knows what both knew, and that the rule holds. It may know more than that.
    pub fn learn(&mut self, other: &Seen<E, P>)
        requires { other.now.book ≡ self.old.book }
        ensures book { self.new.book ≡ self.old.book }
        ensures mine { IsPrefix self.old.log self.new.log }
        ensures theirs { IsPrefix other.now.log self.new.log }
        ensures holds { P.holds self.new.log }
    {}
}

impl<E, P: Rule<E>> Rights<E, P> {
    /// The next owner's right.
    pub fn take(&mut self) -> Owner<E, P>
        requires { 0 < self.old.left }
        ensures owner { (result.book ≡ self.old.book)
            × (result.key ≡ self.old.next) × (result.own ≡ []) }
        ensures rest { (self.new.book ≡ self.old.book)
            × (self.new.next ≡ self.old.next + 1) × (self.new.left ≡ self.old.left - 1) }
    {
        Owner {
            marker: PhantomData,
        }
    }

    /// The rights of the next `count` owners, for somebody else to deal.
    pub fn divide(&mut self, count: u64) -> Rights<E, P>
        requires { count ≤ self.old.left }
        ensures taken { (result.book ≡ self.old.book)
            × (result.next ≡ self.old.next) × (result.left ≡ count) }
        ensures rest { (self.new.book ≡ self.old.book)
            × (self.new.next ≡ self.old.next + count)
            × (self.new.left ≡ self.old.left - count) }
    {
        let _ = count;
        Rights {
            marker: PhantomData,
        }
    }
}

impl<E, P: Rule<E>> Owner<E, P> {
    /// What was seen has then all that concerns this owner.
    pub fn look(&mut self, seen: &mut Seen<E, P>)
        requires { seen.old.book ≡ self.old.book }
        ensures owner { self.new ≡ self.old }
        ensures seen { (seen.new.book ≡ seen.old.book)
            × IsPrefix seen.old.log seen.new.log × P.holds seen.new.log }
        ensures all { part P.concerns self.old.key seen.new.log ≡ self.old.own }
    {}

    /// Adds the entry of `about`, which concerns this owner alone. It comes behind all that was
    /// added by then, by this owner or others, and all that was seen.
    pub fn add<X, M: Entry<X, E>>(&mut self, seen: &mut Seen<E, P>, about: &X)
        requires book { seen.old.book ≡ self.old.book }
        requires concerns { ConcernsOne P.concerns self.old.key (M.entry about.now) }
        requires may_follow { MayFollow P.holds P.concerns
            seen.old.log self.old.key self.old.own (M.entry about.now) }
        ensures owner { (self.new.book ≡ self.old.book) × (self.new.key ≡ self.old.key)
            × (self.new.own ≡ self.old.own ++ M.entry about.now ∷ []) }
        ensures seen { (seen.new.book ≡ seen.old.book)
            × Adds seen.old.log seen.new.log (M.entry about.now) × P.holds seen.new.log }
        ensures all { part P.concerns self.old.key seen.new.log ≡ self.new.own }
    {}

    /// Adds an entry that concerns this owner and the other, and nobody else.
    pub fn add_both<X, M: Entry<X, E>>(
        &mut self,
        other: &mut Owner<E, P>,
        seen: &mut Seen<E, P>,
        about: &X,
    )
        requires books { (seen.old.book ≡ self.old.book) × (other.old.book ≡ self.old.book) }
        requires apart { other.old.key ≢ self.old.key }
        requires concerns { ConcernsTwo P.concerns self.old.key other.old.key (M.entry about.now) }
        requires may_follow { MayFollowBoth P.holds P.concerns
            seen.old.log self.old.key self.old.own other.old.key other.old.own (M.entry about.now) }
        ensures owner { (self.new.book ≡ self.old.book) × (self.new.key ≡ self.old.key)
            × (self.new.own ≡ self.old.own ++ M.entry about.now ∷ []) }
        ensures other { (other.new.book ≡ other.old.book) × (other.new.key ≡ other.old.key)
            × (other.new.own ≡ other.old.own ++ M.entry about.now ∷ []) }
        ensures seen { (seen.new.book ≡ seen.old.book)
            × Adds seen.old.log seen.new.log (M.entry about.now) × P.holds seen.new.log }
        ensures all { (part P.concerns self.old.key seen.new.log ≡ self.new.own)
            × (part P.concerns other.old.key seen.new.log ≡ other.new.own) }
    {}
}

impl<E, P: Rule<E>> Drop for Seen<E, P> {
    fn drop(self) {
        let Self { marker: _ } = self;
    }
}

impl<E, P: Rule<E>> Drop for Owner<E, P> {
    fn drop(self) {
        let Self { marker: _ } = self;
    }
}

impl<E, P: Rule<E>> Drop for Rights<E, P> {
    fn drop(self) {
        let Self { marker: _ } = self;
    }
}

unsafe impl<E, P: Rule<E>> Send for Seen<E, P> {}

unsafe impl<E, P: Rule<E>> Sync for Seen<E, P> {}

unsafe impl<E, P: Rule<E>> Send for Owner<E, P> {}

unsafe impl<E, P: Rule<E>> Sync for Owner<E, P> {}

unsafe impl<E, P: Rule<E>> Send for Rights<E, P> {}

unsafe impl<E, P: Rule<E>> Sync for Rights<E, P> {}
