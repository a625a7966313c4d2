//! The value of a local part, read from its spelling without memory: a quoted string loses its
//! quotes and backslashes on the way (RFC 5321, section 4.1.2). What a value names is the directory's matter.

ghost use Rattle.std.specs.Prelude.{◌≡◌, ◌∷◌, [], MatchOption};
ghost use Rattle.std.specs.Option.{option_map};
ghost use Rattle.std.specs.List.{before_first};
ghost use Rattle.std.specs.Str.{str_eq_ignore_ascii_case as is_same};
ghost use Rattle.envelope.specs.Names.{value_of, is_plus};
ghost use Rattle.envelope.specs.LocalPart.{value_left, past_user};
ghost use Rattle.envelope.specs.inner.Tag.{tag_of};

use crate::tag::next_tag;

/// What is left of the value of a local part.
#[derive(Clone, Copy)]
pub struct LocalValue<'a> {
    spelled: &'a [u8],
    is_quoted: bool,
}

impl<'a> LocalValue<'a> {
    /// The value of a local part as it is spelled, with its quotes if it has some.
    pub fn of(local: &'a [u8]) -> LocalValue<'a>
        ensures { value_left result ≡ value_of local.now }
    {
        match local {
            [b'"', quoted @ ..] => LocalValue {
                spelled: quoted,
                is_quoted: true,
            },
            _ => LocalValue {
                spelled: local,
                is_quoted: false,
            },
        }
    }

    /// The first byte of the value and what follows it.
    pub fn split_first(self) -> Option<(u8, LocalValue<'a>)>
        ensures { MatchOption result (value_left self.entry ≡ []) (λ x. value_left self.entry
            ≡ x.0 ∷ value_left x.1) }
    {
        let is_quoted = self.is_quoted;
        let (byte, spelled) = match self.spelled {
            [] => return None,
            [b'"', ..] if is_quoted => return None,
            [b'\\'] if is_quoted => return None,
            [b'\\', byte, rest @ ..] if is_quoted => (*byte, rest),
            [byte, rest @ ..] => (*byte, rest),
        };
        Some((byte, LocalValue { spelled, is_quoted }))
    }

    /// Whether this is the name, in upper or lower case.
    pub fn is_same(self, name: &[u8]) -> bool
        ensures { result ≡ is_same (value_left self.entry) name.now }
    {
        let mut rest = self;
        for b in name {
            match rest.split_first() {
                Some((first, more)) if first.eq_ignore_ascii_case(b) => rest = more,
                _ => return false,
            }
        }
        rest.split_first().is_none()
    }

    /// What follows the user, where the value begins with it, in upper or lower case, before its first `+`.
    pub fn past_user(self, user: &[u8]) -> Option<LocalValue<'a>>
        ensures { option_map value_left result ≡ past_user user.now (value_left self.entry) }
    {
        let mut rest = self;
        for b in user {
            let Some((first, more)) = rest.split_first() else {
                return None;
            };
            if first == b'+' {
                return None;
            }
            if !first.eq_ignore_ascii_case(b) {
                return None;
            }
            rest = more;
        }
        Some(rest)
    }
    /// The tag of the user, which ends before the value's first `+`.
    pub(crate) fn user_tag(self) -> u16
        ensures { result ≡ tag_of (before_first is_plus (value_left self.entry)) }
    {
        let mut rest = self;
        let mut tag = 0;
        while let Some((byte, more)) = rest.split_first() {
            if byte == b'+' {
                return tag;
            }
            tag = next_tag(tag, byte);
            rest = more;
        }
        tag
    }
}
