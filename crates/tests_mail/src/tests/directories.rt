//! A directory by its worked cases: which mailbox a path names, the numbers of words, and the fault of
//! each directory that isn't one.

ghost use Rattle.std.specs.Prelude.{◌≡◌, IfOk};

use envelope::{Directory, DirectoryFault, ForwardPath, Mailbox, NoSuch, is_name};
use std::alloc::Global;

const DOMAINS: &[&[u8]] = &[b"example.org"];

fn house(alloc: Global) -> Result<Directory, DirectoryFault>
    ensures shards { IfOk result (λ d. d.shards ≡ 2) }
{
    let words = [
        b"alice".as_slice(),
        b"alice/Work".as_slice(),
        b"postmaster".as_slice(),
    ];
    Directory::new(alloc, DOMAINS, &words, 2)
}

// The number of the mailbox at a domain.
fn at(directory: &Directory, local: &[u8], domain: &[u8]) -> Result<u8, NoSuch> {
    directory.lookup(ForwardPath::Recipient(Mailbox { local, domain }))
}

const PATHS: &[(&[u8], Result<u8, NoSuch>)] = &[
    (b"alice", Ok(0)),
    (b"Alice", Ok(0)),
    (b"alice+inbox", Ok(0)),
    (b"alice+work", Ok(1)),
    (b"\"al\\ice\"", Ok(0)),
    (b"\"alice+Wor\\k\"", Ok(1)),
    (b"postmaster", Ok(2)),
    (b"alice+", Err(NoSuch::User)),
    (b"alice/Work", Err(NoSuch::User)),
    (b"alic", Err(NoSuch::User)),
    (b"alices", Err(NoSuch::User)),
];

#[test]
fn paths_are_looked_up(rt: HostRuntime) -> Result<(), DirectoryFault> {
    let directory = house(rt.alloc())?;
    for (local, want) in PATHS {
        let found = [
            at(&directory, local, b"EXAMPLE.org"),
            at(&directory, local, b"example.com"),
        ];
        assert_eq!(rt; found, [*want, Err(NoSuch::System)]);
    }
    assert_eq!(rt; directory.lookup(ForwardPath::Postmaster), Ok(2));
    Ok(())
}

#[test]
fn a_shard_is_shut_for_good(rt: HostRuntime) -> Result<(), DirectoryFault> {
    let mut directory = house(rt.alloc())?;
    assert!(rt; !directory.is_shut(0) && !directory.is_shut(1));
    directory.shut(1);
    assert!(rt; !directory.is_shut(0) && directory.is_shut(1) && !directory.is_shut(2));
    directory.shut(1);
    assert!(rt; directory.is_shut(1));
    assert_eq!(rt; at(&directory, b"alice+work", b"example.org"), Ok(1));
    assert_eq!(rt; directory.shard_of(1), 1);
    Ok(())
}

#[test]
fn a_copy_has_marks_of_its_own(rt: HostRuntime) -> Result<(), DirectoryFault> {
    let mut directory = house(rt.alloc())?;
    directory.shut(0);
    let mut copy = directory.copy(rt.alloc())?;
    copy.shut(1);
    assert!(rt; directory.is_shut(0) && !directory.is_shut(1));
    assert!(rt; copy.is_shut(0) && copy.is_shut(1));
    assert_eq!(rt; at(&copy, b"alice+work", b"EXAMPLE.org"), Ok(1));
    assert_eq!(rt; (copy.mailboxes(), copy.shards()), (3, 2));
    Ok(())
}

const NUMBERS: &[(&[u8], Option<u8>)] = &[
    (b"alice/Work", Some(1)),
    (b"alice", Some(0)),
    (b"alice/work", None),
    (b"alice/", None),
];

fn first_unlike_number(directory: &Directory) -> Option<&'static [u8]> {
    for (word, wanted) in NUMBERS {
        if directory.number_of(word) != *wanted {
            return Some(word);
        }
    }
    None
}

// Whether the three mailboxes stand on their shards, and are the users' and the folders' that the words name.
fn are_homes_right(directory: &Directory) -> bool {
    directory.mailboxes() == 3
        && directory.shards() == 2
        && directory.shard_of(2) == 0
        && directory.user_of(1) == b"alice".as_slice()
        && directory.folder_of(1) == Some(b"Work".as_slice())
        && directory.folder_of(2).is_none()
}

#[test]
fn words_have_numbers(rt: HostRuntime) -> Result<(), DirectoryFault> {
    let directory = house(rt.alloc())?;
    assert_eq!(rt;
        (first_unlike_number(&directory), are_homes_right(&directory)),
        (None, true)
    );
    Ok(())
}

// The fault of a directory of these domains and words.
fn fault_of(alloc: Global, domains: &[&[u8]], words: &[&[u8]]) -> Option<DirectoryFault> {
    Directory::new(alloc, domains, words, 1).err()
}

const WORDS: &[(&[&[u8]], Option<DirectoryFault>)] = &[
    (&[b"alice", b"bob"], None),
    (&[b"alice", b"alice"], Some(DirectoryFault::Twice)),
    (&[b"alice", b"Alice"], Some(DirectoryFault::BadName)),
    (&[b"alice", b"bob/Work"], Some(DirectoryFault::BadName)),
    (&[b"alice/Work", b"alice"], Some(DirectoryFault::BadName)),
    (&[b"alice", b"alice/inBox"], Some(DirectoryFault::BadName)),
    (&[b"alice", b"alice/a/b"], Some(DirectoryFault::BadName)),
    (&[b"alice", b"alice/"], Some(DirectoryFault::BadName)),
    (&[b"alice", b""], Some(DirectoryFault::BadName)),
    (
        &[b"alice", b"alice/Work", b"alice/WORK", b"*"],
        Some(DirectoryFault::Twice),
    ),
];

#[test]
fn faults_of_words(rt: HostRuntime) {
    for (words, want) in WORDS {
        assert_eq!(rt; fault_of(rt.alloc(), DOMAINS, words), *want);
    }
}

const STAR: &[u8] = b"*";

const MANY: &[&[u8]] = &[STAR; 65];

const BAD: &[&[u8]] = &[b"example_org"];

const TWICE: &[&[u8]] = &[b"alice", b"alice"];

const IN_ORDER: &[(&[&[u8]], &[&[u8]], DirectoryFault)] = &[
    (BAD, MANY, DirectoryFault::TooMany),
    (BAD, TWICE, DirectoryFault::BadName),
    (&[], TWICE, DirectoryFault::Twice),
];

#[test]
fn faults_in_their_order(rt: HostRuntime) {
    for (domains, words, want) in IN_ORDER {
        assert_eq!(rt; fault_of(rt.alloc(), domains, words), Some(*want));
    }
}

const HOSTS: &[(&[u8], bool)] = &[
    (b"mx-1.example.org", true),
    (b"", false),
    (b"mx_1", false),
    (&[b'a'; 255], true),
    (&[b'a'; 256], false),
];

#[test]
fn names_of_hosts(rt: HostRuntime) {
    for (name, want) in HOSTS {
        assert_eq!(rt; is_name(name), *want);
    }
}
