//! The mailboxes of a user, found by name (RFC 9051, 5.1).

ghost use Rattle.std.specs.Prelude.{◌≡◌};
ghost use Rattle.std.specs.Option.{option_copied};
ghost use Rattle.imap_session.specs.Commands.{folder_of, is_named};

use crate::standing::Folder;

// Whether a folder has this name. INBOX is the same name whatever the case.
fn is_named(name: &[u8], folder: &Folder) -> bool
    ensures { result ≡ is_named name.now folder.now }
{
    let own = folder.name();
    own == name || (own.eq_ignore_ascii_case(b"INBOX") && name.eq_ignore_ascii_case(b"INBOX"))
}

// The first folder of this name.
pub(crate) fn find_folder<'a>(name: &[u8], folders: &'a [Folder]) -> Option<&'a Folder>
    ensures { option_copied result ≡ folder_of name.now folders.now }
{
    for folder in folders {
        if is_named(name, folder) {
            return Some(folder);
        }
    }
    None
}
