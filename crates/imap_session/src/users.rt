//! The mailboxes of a user, by the names that the user knows them by. Which user it is, is told by the word that a session enters with.

ghost use Rattle.std.specs.Prelude.{◌≡◌, ◌<◌, ◌++◌, ◌∷◌, [], IfOk, IfSome, IsOk, OnOk, false, length, slice_get};
ghost use Rattle.std.specs.Option.{option_copied};
ghost use Rattle.imap_session.specs.Folders.{folders_from, folders_of, has_user, name_of, admission_of};

use crate::standing::{Admission, Folder, Profile};
use crate::user::UserName;
use budget::Budget;
use envelope::Directory;
use std::alloc::{AllocError, Global};

// The name that a user knows a mailbox by.
fn name_of(folder: Option<&[u8]>) -> &[u8]
    ensures { result.now ≡ name_of (option_copied folder.entry) }
{
    match folder {
        None => b"INBOX",
        Some(folder) => folder,
    }
}

// Adds a mailbox to the folders, if it is one of the user's.
fn add_folder(
    alloc: Global,
    directory: &Directory,
    user: &[u8],
    mailbox: u8,
    folders: &mut Vec<Folder>,
) -> Result<(), AllocError>
    requires { mailbox < length directory.now.homes }
    ensures { OnOk result (IfSome (slice_get directory.now.homes mailbox) (λ home.
        folders.new.items ≡ folders.old.items ++ folders_from mailbox user.now (home ∷ []))) }
{
    if user != directory.user_of(mailbox) {
        return Ok(());
    }
    let name = Vec::from_slice(alloc, name_of(directory.folder_of(mailbox)))?;
    folders.push(Folder::new(name, mailbox))?;
    Ok(())
}

/// Whether there is a user of this name, compared byte by byte. It takes no memory.
pub fn has_user(directory: &Directory, user: &[u8]) -> bool
    ensures { result ≡ has_user directory.now user.now }
{
    for mailbox in 0..directory.mailboxes() {
        if user == directory.user_of(mailbox as u8) {
            return true;
        }
    }
    false
}

/// How the session of the user with this name begins: in the compatible profile its client is to log in as that user, and in the
/// standard one it is known already. It appends messages of so many bytes at most, or none.
///
/// Errors: `AllocError` where memory was refused, which only the compatible profile wants.
pub fn admission_of(
    alloc: Global,
    compatible: bool,
    max_message: Option<u32>,
    user: &[u8],
    budget: Budget,
) -> Result<Admission, AllocError>
    ensures is { IfOk result (λ admission.
        admission ≡ admission_of compatible max_message user.now) }
    ensures memory { compatible ≡ false → IsOk result }
{
    if !compatible {
        return Ok(Admission {
            max_message,
            profile: Profile::Standard,
            login: None,
            budget,
        });
    }
    Ok(Admission {
        max_message,
        profile: Profile::Compatible,
        login: Some(UserName::new(alloc, user)?),
        budget,
    })
}

/// The mailboxes of the user with this name, in the directory's order: the user's INBOX under that name, any other under its folder's.
/// The name is compared byte by byte, and where there is no such user there is no folder.
///
/// Errors: `AllocError` where memory was refused.
pub fn folders_of(
    alloc: Global,
    directory: &Directory,
    user: &[u8],
) -> Result<Vec<Folder>, AllocError>
    ensures { IfOk result (λ v. v.items ≡ folders_of directory.now user.now) }
{
    let mut folders = Vec::new(alloc);
    for mailbox in 0..directory.mailboxes() {
        add_folder(alloc, directory, user, mailbox as u8, &mut folders)?;
    }
    Ok(folders)
}
