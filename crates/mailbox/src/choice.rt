//! Which of the messages with \Deleted may go: any, or those of a set of UIDs. The messages
//! themselves are not told here.

ghost use Rattle.std.specs.Prelude.{◌≡◌, ◌==◌, option_map};
ghost use Rattle.std.specs.List.Sorted.{IsNonDecreasing};
ghost use Rattle.std.specs.List.{list_any};
ghost use Rattle.mailbox.specs.inner.Choices.{IsFound, passes};
ghost use Rattle.mailbox.specs.Events.{in_set};

// Which messages with \Deleted may go.
#[derive(Clone, Copy)]
pub(crate) enum Choice<'a> {
    // all
    Any,
    // those with these UIDs, which do not fall, so that each is found by halving
    Rising(&'a [u32]),
    // those with these UIDs, in whatever order
    Listed(&'a [u32]),
}

// Whether these UIDs, which do not fall, have one.
fn has_rising(uids: &[u32], uid: u32) -> bool
    requires { IsNonDecreasing uids.now }
    ensures { result ≡ list_any (λ u. u == uid) uids.now }
{
    uids.binary_search(&uid).is_ok()
}

impl<'a> Choice<'a> {
    // A set's choice: a set that rises, as a resolved one does, is searched by halving.
    pub(crate) fn of(set: Option<&'a [u32]>) -> Choice<'a>
        ensures test { passes result ≡ in_set (option_map (λ uids. uids.now) set.entry) }
        ensures found { IsFound result }
    {
        match set {
            None => Choice::Any,
            Some(uids) => {
                if uids.is_sorted() {
                    Choice::Rising(uids)
                } else {
                    Choice::Listed(uids)
                }
            }
        }
    }

    // Whether it has a UID.
    pub(crate) fn has(self, uid: u32) -> bool
        requires { IsFound self }
        ensures { result ≡ passes self.entry uid }
    {
        match self {
            Choice::Any => true,
            Choice::Rising(uids) => has_rising(uids, uid),
            Choice::Listed(uids) => uids.contains(&uid),
        }
    }
}
