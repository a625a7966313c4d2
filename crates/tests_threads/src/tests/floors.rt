//! A small house: two shards, two producers, alice with a folder, and bob.

ghost use Rattle.std.specs.Prelude.{◌≡◌, ◌≢◌, ◌<◌, ◌≤◌, All, IfOk, None, length, vec_len};
ghost use Rattle.house_shared.specs.Users.{user_numbered};

use super::support::{directory, sizes};
use envelope::Directory;
use house_history::Naming;
use house_shared::{Guest, Opened, inbox_numbered, is_nobody, open};
use std::alloc::{AllocError, Global};
use std::marker::Brand;
use std::mem::ManuallyDrop;
use std::test::Fail;

// A house that no thread works in can't be closed, and is left where it is.
fn leave<B: Naming>(opened: Opened<B>) -> ManuallyDrop<Opened<B>> {
    unsafe { ManuallyDrop::new_unchecked(opened) }
}

#[test]
fn users_are_numbered_by_their_inboxes(rt: HostRuntime) -> Result<(), Fail> {
    let directory = directory(rt.alloc())?;
    assert!(&rt; inbox_numbered(&directory, 0) == Some(0));
    assert!(&rt; inbox_numbered(&directory, 1) == Some(2));
    assert!(&rt; inbox_numbered(&directory, 2) == None);
    Ok(())
}

// A session of this user alone, where there is such a user.
fn guests_of(alloc: Global, directory: &Directory, user: u8) -> Result<Vec<Guest>, Fail>
    ensures users { IfOk result (λ vs.
        All (λ v. user_numbered v.user directory.now.homes ≢ None) vs.items) }
    ensures one { IfOk result (λ vs. vec_len vs ≡ 1) }
{
    if is_nobody(directory, user) {
        return Err(Fail::new("no such user"));
    }
    let mut guests = Vec::new(alloc);
    guests.push(Guest {
        user,
        steps: Vec::new(alloc),
    })?;
    Ok(guests)
}

// How many bells each mailbox has, as digits of a number.
fn bells_in<B: Naming>(opened: &Opened<B>) -> usize {
    let mut bells = 0usize;
    for list in &opened.shared.delivery.sessions {
        bells = bells.wrapping_mul(10).wrapping_add(list.len());
    }
    bells
}

// What a house of these sizes has, whose history was just opened: bells, stands, posts and mailboxes.
#[derive(Clone, Copy)]
struct Has {
    bells: usize,
    stands: usize,
    posts: usize,
    mailboxes: usize,
}

fn opened_for<B: Naming>(
    alloc: Global,
    history: house_history::Opened,
    directory: Directory,
    guests: &[Guest],
) -> Result<Has, AllocError>
    requires history { history ≡ B.book }
    requires shards { 0 < directory.shards }
    requires guests { All (λ v. user_numbered v.user directory.homes ≢ None) guests.now }
    requires few { length guests.now ≤ 256 }
{
    let opened = open::<B>(alloc, history, directory, sizes(2, 8), guests)?;
    let has = Has {
        bells: bells_in(&opened),
        stands: opened.crew.stands.len(),
        posts: opened.crew.posts.len(),
        mailboxes: opened.shared.delivery.mailboxes.len(),
    };
    let _left = leave(opened);
    Ok(has)
}

#[test]
fn each_mailbox_has_the_bells_of_its_user(rt: HostRuntime) -> Result<(), Fail> {
    let alloc = rt.alloc();
    let directory = directory(alloc)?;
    let guests = guests_of(alloc, &directory, 1)?;
    let history = house_history::Opened::new();
    let has = opened_for::<Brand>(alloc, history, directory, &guests)?;
    assert!(&rt; has.bells == 1);
    Ok(())
}

#[test]
fn a_house_has_all_its_parts(rt: HostRuntime) -> Result<(), Fail> {
    let alloc = rt.alloc();
    let directory = directory(alloc)?;
    let history = house_history::Opened::new();
    let has = opened_for::<Brand>(alloc, history, directory, &[])?;
    assert!(&rt; (has.stands, has.posts) == (2, 2));
    assert!(&rt; has.mailboxes == 3);
    Ok(())
}
