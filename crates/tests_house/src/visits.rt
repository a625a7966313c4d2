//! Who isn't there has no mailboxes. A house asks for those of its users alone.

use envelope::{Directory, DirectoryFault};
use imap_session::folders_of;
use std::alloc::Global;

// Two users, one of whom has a folder.
fn two_users(alloc: Global) -> Result<Directory, DirectoryFault> {
    Directory::new(
        alloc,
        &[b"example.org".as_slice()],
        &[
            b"alice".as_slice(),
            b"alice/Work".as_slice(),
            b"bob".as_slice(),
        ],
        2,
    )
}

// Whether a user has so many mailboxes.
fn has_folders(alloc: Global, directory: &Directory, user: &[u8], wanted: usize) -> bool {
    match folders_of(alloc, directory, user) {
        Ok(folders) => folders.len() == wanted,
        Err(_) => false,
    }
}

fn are_known(alloc: Global, directory: &Directory) -> bool {
    has_folders(alloc, directory, b"alice", 2) && has_folders(alloc, directory, b"Alice", 0)
}

#[test]
fn users_are_known_by_their_own_names(rt: HostRuntime) -> Result<(), DirectoryFault> {
    let directory = two_users(rt.alloc())?;
    assert!(rt; are_known(rt.alloc(), &directory));
    Ok(())
}
