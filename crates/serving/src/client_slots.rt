//! The client slots of a server: for each user so many sessions at a time. Who serves them stands in `sessions`.

ghost use Rattle.std.specs.Prelude.{ℕ, ◌≡◌, ◌≢◌, ◌≤◌, ◌+◌, ◌*◌, All, IfOk, List, None, OnOk, length, vec_len};
ghost use Rattle.envelope.specs.Names.{Home};
ghost use Rattle.house_shared.specs.Users.{user_numbered};
ghost use Rattle.serving.specs.Announcing.{users_of};
ghost use Rattle.serving.specs.Producers.{client_slots_of_user};
ghost use Rattle.settings.specs.Settings.{IsInRange};

use envelope::Directory;
use house_shared::{Guest, is_nobody};
use settings::Config;
use std::alloc::{AllocError, Global};

// So many client slots more, of this user.
fn add_client_slots(
    alloc: Global,
    user: u8,
    count: u8,
    guests: &mut Vec<Guest>,
) -> Result<(), AllocError>
    ensures count { OnOk result (vec_len guests.new ≡ vec_len guests.old + count) }
    ensures named { OnOk result ((homes : List Home) → user_numbered user homes ≢ None
        → All (λ v. user_numbered v.user homes ≢ None) guests.old.items
        → All (λ v. user_numbered v.user homes ≢ None) guests.new.items) }
{
    for _ in 0..count {
        guests.push(Guest {
            user,
            steps: Vec::new(alloc),
        })?;
    }
    Ok(())
}

/// How many client slots each user has: in the compatible profile one more than clients are served at a time, so that one too many is told so.
pub(crate) fn client_slots_of_user(config: &Config) -> u8
    requires { IsInRange config.now }
    ensures count { result ≡ client_slots_of_user config.now }
    ensures few { result ≤ 17 }
{
    if config.compatible {
        config.sessions + 1
    } else {
        config.sessions
    }
}

/// So many client slots for each user, in the order of the users.
///
/// Errors: `AllocError` where memory is refused.
pub(crate) fn client_slots_for(
    alloc: Global,
    directory: &Directory,
    count: u8,
) -> Result<Vec<Guest>, AllocError>
    requires { count ≤ 17 }
    ensures named { IfOk result (λ vs.
        All (λ v. user_numbered v.user directory.now.homes ≢ None) vs.items) }
    ensures few { IfOk result (λ vs. vec_len vs ≤ 1088) }
    ensures count { IfOk result (λ vs. vec_len vs ≡ count * length (users_of directory.now.homes)) }
{
    let mut guests = Vec::new(alloc);
    // Each user has an INBOX, so there are no more users than mailboxes.
    for user in 0..directory.mailboxes() as u8 {
        if is_nobody(directory, user) {
            return Ok(guests);
        }
        add_client_slots(alloc, user, count, &mut guests)?;
    }
    Ok(guests)
}

/// How many users there are, 64 at most.
pub(crate) fn count_users(directory: &Directory) -> u16
    ensures few { result ≤ 64 }
    ensures count { result ≡ length (users_of directory.now.homes) }
{
    // Each user has an INBOX, so there are no more users than mailboxes.
    for user in 0..directory.mailboxes() as u8 {
        if is_nobody(directory, user) {
            return u16::from(user);
        }
    }
    directory.mailboxes() as u16
}
