//! Tags of users: numbers that users have in common where they differ in case at most, so that one comparison of
//! numbers passes over a mailbox whose user is another. Who compares them does not belong here.

ghost use Rattle.std.specs.Prelude.{◌≡◌};
ghost use Rattle.envelope.specs.inner.Tag.{next_tag, tag_of};

/// The tag of what has one more byte than that of which this is the tag.
pub(crate) fn next_tag(tag: u16, byte: u8) -> u16
    ensures { result ≡ next_tag tag byte }
{
    ((u32::from(tag) * 31 + u32::from(byte.to_ascii_lowercase())) % 65_536) as u16
}

/// The tag of a user.
pub(crate) fn tag_of(user: &[u8]) -> u16
    ensures { result ≡ tag_of user.now }
{
    user.iter().fold(0, |tag, byte| next_tag(tag, *byte))
}
