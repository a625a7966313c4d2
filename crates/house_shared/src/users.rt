//! The users of a directory, by their numbers. Names are compared and words are read elsewhere.

ghost use Rattle.std.specs.Prelude.{◌≡◌, ◌<◌, true, None, Some, IfSome, is_none, length, slice_get};
ghost use Rattle.house_shared.specs.Users.{is_inbox, user_numbered};

use envelope::Directory;

// Whether the mailbox is its user's INBOX.
fn is_inbox(directory: &Directory, mailbox: u8) -> bool
    requires { mailbox < length directory.now.homes }
    ensures { IfSome (slice_get directory.now.homes mailbox) (λ home.
        result ≡ is_inbox home.folder) }
{
    directory.folder_of(mailbox).is_none()
}

/// The INBOX of the user with this number, counted from 0 in the order of the directory's mailboxes.
/// None where there are no so many users.
pub fn inbox_numbered(directory: &Directory, user: u8) -> Option<u8>
    ensures inbox { IfSome result (λ inbox. (inbox < length directory.now.homes)
        × IfSome (slice_get directory.now.homes inbox) (λ home.
        user_numbered user directory.now.homes ≡ Some home.user)) }
    // It is an INBOX, and no folder.
    ensures folder { IfSome result (λ inbox.
        IfSome (slice_get directory.now.homes inbox) (λ home. is_inbox home.folder ≡ true)) }
    ensures none { result ≡ None → user_numbered user directory.now.homes ≡ None }
{
    let mut left = user;
    for mailbox in 0..directory.mailboxes() {
        if is_inbox(directory, mailbox as u8) {
            if left == 0 {
                return Some(mailbox as u8);
            }
            left -= 1;
        }
    }
    None
}

/// Whether there is no user of this number, counted as `inbox_numbered` does.
pub fn is_nobody(directory: &Directory, user: u8) -> bool
    ensures { result ≡ is_none (user_numbered user directory.now.homes) }
{
    inbox_numbered(directory, user).is_none()
}
