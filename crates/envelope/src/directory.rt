//! The directory of mailboxes: which mailbox a path names, which shard keeps it, and which shards are shut.
//! It is made once, from words. Only the marks of its shards change afterwards.

ghost use Rattle.std.specs.Prelude.{◌≡◌, ◌<◌, ◌≤◌, ℕ, map, length, IfOk, IfErr, IfSome, IsOk, IsOkUnless, List, Ok, Err, position, slice_get, slice_set, true};
ghost use Rattle.std.specs.Option.{option_copied};
ghost use Rattle.std.specs.List.{list_any, list_all};
ghost use Rattle.std.specs.Result.{result_err};
ghost use Rattle.std.specs.Str.{str_eq_ignore_ascii_case as is_same};
ghost use Rattle.envelope.specs.Values.{forward_path};
ghost use Rattle.envelope.specs.Names.{is_home, is_shut, marked, none_shut, wanted, numbered, lookup, shard_of, is_name, texts, home_of, is_exactly, words_read, number_of};
ghost use Rattle.envelope.specs.LocalPart.{value_left};
ghost use Rattle.envelope.specs.Word.{word_home};
ghost use Rattle.envelope.specs.inner.Tag.{tag_of};

use crate::command::ForwardPath;
use crate::local_part::LocalValue;
use crate::names::is_name;
use crate::tag::tag_of;
use crate::word::{Word, first_fault};
use std::alloc::{AllocError, Global};
use std::marker::Model;

/// Why a path names no mailbox.
#[derive(Clone, Copy, Debug, PartialEq, Eq)]
pub enum NoSuch {
    /// The domain isn't one of this server's.
    System,
    /// The user or the folder isn't there.
    User,
}

/// Why a directory can't be made. The first that holds is the fault; a lack of memory comes last.
#[derive(Clone, Copy, Debug, PartialEq, Eq)]
pub enum DirectoryFault {
    /// There are more than 64 words.
    TooMany,
    /// A domain or a word is spelled wrong, or a folder's user has no word before it.
    BadName,
    /// A word names the mailbox of an earlier one, in upper or lower case.
    Twice,
    /// Memory was refused.
    NoMemory,
}

impl From<AllocError> for DirectoryFault {
    ghost use Rattle.envelope.specs.declared.directory.DirectoryFault.{DirectoryFault};

    ghost from_gives = { λ _ fault. fault ≡ DirectoryFault.NoMemory };

    fn from(_error: AllocError) -> DirectoryFault {
        DirectoryFault::NoMemory
    }
}

/// The most mailboxes that a directory may have.
pub const MOST_MAILBOXES: usize = 64;

/// Bytes that the directory keeps.
#[derive(Drop)]
struct StoredName {
    bytes: Vec<u8>,
}

impl Model for StoredName {
    ghost use Rattle.std.specs.Prelude.{List, ℕ};

    ghost Value = { List ℕ };

    ghost view = { λ n. n.bytes.items };
}

impl StoredName {
    fn new(alloc: Global, name: &[u8]) -> Result<StoredName, AllocError>
        ensures { IfOk result (λ n. n ≡ name.now) }
    {
        Ok(StoredName {
            bytes: Vec::from_slice(alloc, name)?,
        })
    }

    fn as_bytes(&self) -> &[u8]
        ensures { result.now ≡ self.now }
    {
        self.bytes.as_slice()
    }

    fn copy(&self, alloc: Global) -> Result<StoredName, AllocError>
        ensures { IfOk result (λ n. n ≡ self.now) }
    {
        StoredName::new(alloc, self.as_bytes())
    }
}

/// The mailbox that a value names, with the tag of its user.
#[derive(Drop)]
struct Sought<'a> {
    value: LocalValue<'a>,
    tag: u16,
}

impl<'a> Model for Sought<'a> {
    ghost use Rattle.std.specs.Prelude.{◌≡◌};
    ghost use Rattle.envelope.specs.Names.{Home, wanted};
    ghost use Rattle.envelope.specs.LocalPart.{value_left};
    ghost use Rattle.envelope.specs.inner.Tag.{tag_of};

    ghost Value = { Home };

    ghost view = { λ s. wanted (value_left s.value) };

    ghost invariant = { λ s. s.tag ≡ tag_of (wanted (value_left s.value)).user };
}

impl<'a> Sought<'a> {
    fn new(value: LocalValue<'a>) -> Sought<'a>
        ensures { result ≡ wanted (value_left value.entry) }
    {
        Sought {
            value,
            tag: value.user_tag(),
        }
    }
}

/// A mailbox: a user's folder, or with none the user's INBOX.
#[derive(Drop)]
struct StoredHome {
    user: StoredName,
    // The tag of the user.
    tag: u16,
    folder: Option<StoredName>,
}

impl Model for StoredHome {
    ghost use Rattle.std.specs.Prelude.{◌≡◌};
    ghost use Rattle.envelope.specs.Names.{Home};
    ghost use Rattle.envelope.specs.inner.Tag.{tag_of};

    ghost Value = { Home };

    ghost view = { λ h. record { user = h.user; folder = h.folder } };

    ghost invariant = { λ h. h.tag ≡ tag_of h.user };
}

impl StoredHome {
    fn new(alloc: Global, word: &[u8]) -> Result<StoredHome, AllocError>
        ensures { IfOk result (λ home. home ≡ home_of word.now) }
    {
        let word = Word::cut(word);
        let user = StoredName::new(alloc, word.user)?;
        let tag = tag_of(word.user);
        let folder = match word.folder {
            None => None,
            Some(folder) => Some(StoredName::new(alloc, folder)?),
        };
        Ok(StoredHome { user, tag, folder })
    }

    fn copy(&self, alloc: Global) -> Result<StoredHome, AllocError>
        ensures { IfOk result (λ home. home ≡ self.now) }
    {
        let user = self.user.copy(alloc)?;
        let folder = match &self.folder {
            None => None,
            Some(folder) => Some(folder.copy(alloc)?),
        };
        Ok(StoredHome {
            user,
            tag: self.tag,
            folder,
        })
    }

    /// Whether a path with this local part names the mailbox.
    #[tactic(auto, using(crate::proofs::Wanted::wanted_is))]
    fn is_wanted(&self, value: LocalValue<'_>) -> bool
        ensures { result ≡ is_home (wanted (value_left value.entry)) self.now }
    {
        let Some(rest) = value.past_user(self.user.as_bytes()) else {
            return false;
        };
        match rest.split_first() {
            None => self.folder.is_none(),
            Some((b'+', name)) if name.is_same(b"INBOX") => self.folder.is_none(),
            Some((b'+', name)) => match &self.folder {
                Some(folder) => name.is_same(folder.as_bytes()),
                None => false,
            },
            Some(_) => false,
        }
    }

    /// The same of what is sought: users that aren't the same mostly have other tags, so few are compared byte by byte.
    fn is_sought(&self, sought: &Sought<'_>) -> bool
        ensures { result ≡ is_home sought.now self.now }
    {
        self.tag == sought.tag && self.is_wanted(sought.value)
    }

    /// Whether the word names the mailbox, byte by byte.
    fn is_named(&self, word: Word<'_>) -> bool
        ensures { result ≡ is_exactly (word_home word.entry) self.now }
    {
        word.user == self.user.as_bytes()
            && match (word.folder, &self.folder) {
                (None, None) => true,
                (Some(folder), Some(own)) => folder == own.as_bytes(),
                _ => false,
            }
    }
}

fn are_names(names: &[&[u8]]) -> bool
    ensures { result ≡ list_all (λ name. is_name name.now) names.now }
{
    names.iter().all(|name| is_name(name))
}

/// What is wrong with the names that a directory is to be made of.
#[tactic(auto, using(crate::proofs::Faults::fault_is))]
fn fault_of(domains: &[&[u8]], words: &[&[u8]]) -> Option<DirectoryFault>
    ensures { result ≡ result_err (words_read (texts domains.now) (texts words.now)) }
{
    if words.len() > MOST_MAILBOXES {
        Some(DirectoryFault::TooMany)
    } else if !are_names(domains) {
        Some(DirectoryFault::BadName)
    } else {
        first_fault(words)
    }
}

fn stored_names(alloc: Global, names: &[&[u8]]) -> Result<Vec<StoredName>, AllocError>
    ensures { IfOk result (λ v. v.items ≡ texts names.now) }
{
    let mut stored = Vec::new(alloc);
    for name in names {
        stored.push(StoredName::new(alloc, name)?)?;
    }
    Ok(stored)
}

fn stored_homes(alloc: Global, words: &[&[u8]]) -> Result<Vec<StoredHome>, AllocError>
    ensures { IfOk result (λ v. v.items ≡ map home_of (texts words.now)) }
{
    let mut stored = Vec::new(alloc);
    for word in words {
        stored.push(StoredHome::new(alloc, word)?)?;
    }
    Ok(stored)
}

fn copied_names(alloc: Global, names: &[StoredName]) -> Result<Vec<StoredName>, AllocError>
    ensures { IfOk result (λ v. v.items ≡ names.now) }
{
    let mut copied = Vec::new(alloc);
    for name in names {
        copied.push(name.copy(alloc)?)?;
    }
    Ok(copied)
}

fn copied_homes(alloc: Global, homes: &[StoredHome]) -> Result<Vec<StoredHome>, AllocError>
    ensures { IfOk result (λ v. v.items ≡ homes.now) }
{
    let mut copied = Vec::new(alloc);
    for home in homes {
        copied.push(home.copy(alloc)?)?;
    }
    Ok(copied)
}

fn position_of_sought(homes: &[StoredHome], sought: &Sought<'_>) -> Option<usize>
    ensures value { result ≡ position (is_home sought.now) homes.now }
    ensures within { IfSome result (λ n. n < length homes.now) }
{
    homes.iter().position(|home| home.is_sought(sought))
}

fn position_of_word(homes: &[StoredHome], word: Word<'_>) -> Option<usize>
    ensures value { result ≡ position (is_exactly (word_home word.entry)) homes.now }
    ensures within { IfSome result (λ n. n < length homes.now) }
{
    homes.iter().position(|home| home.is_named(word))
}

/// The mailboxes of a server, by the names that mail comes to. Mailboxes are numbered from 0 in
/// the order of their words.
#[derive(Drop)]
pub struct Directory {
    domains: Vec<StoredName>,
    homes: Vec<StoredHome>,
    shards: u8,
    // Of each shard, whether it is shut.
    shut: Vec<bool>,
}

impl Model for Directory {
    ghost use Rattle.std.specs.Prelude.{◌≡◌, ◌<◌, ◌≤◌, vec_len};
    ghost use Rattle.envelope.specs.Names.{Directory};

    ghost Value = { Directory };

    ghost view = { λ d. record { domains = d.domains.items; homes = d.homes.items; shards = d.shards; shut = d.shut.items } };

    ghost invariant = { λ d. (0 < d.shards) × (vec_len d.homes ≤ 64) × (vec_len d.shut ≡ d.shards) };
}

impl Directory {
    /// A directory for these domains and mailboxes, kept by so many shards, at least 1. A mailbox
    /// is a word, `user` or `user/folder`, with a folder's user before it.
    ///
    /// Errors, in this order: `TooMany` for more than 64 words; `BadName` for a domain that is no
    /// name; then the fault of the first word that has one, `BadName` if it is spelled wrong or
    /// its user has no word before it, `Twice` if it names an earlier one's mailbox in upper or
    /// lower case; `NoMemory` only where nothing else is wrong.
    pub fn new(
        alloc: Global,
        domains: &[&[u8]],
        mailboxes: &[&[u8]],
        shards: u8,
    ) -> Result<Directory, DirectoryFault>
        requires { 0 < shards }
        // After Ok nothing is wrong with the names, and the mailboxes are those of the words, in their order.
        ensures homes { IfOk result (λ d. words_read (texts domains.now) (texts mailboxes.now)
            ≡ Ok d.homes) }
        ensures domains { IfOk result (λ d. d.domains ≡ texts domains.now) }
        ensures shards { IfOk result (λ d. d.shards ≡ shards) }
        // No shard is shut.
        ensures shut { IfOk result (λ d. d.shut ≡ none_shut shards) }
        // Where something is wrong with the names that is the answer: too many words first, then the domains, then word by word.
        ensures fault { IfErr (words_read (texts domains.now) (texts mailboxes.now)) (λ fault.
            result ≡ Err fault) }
        // Where nothing is wrong with the names it is made, or refused as NoMemory.
        ensures made { IsOk (words_read (texts domains.now) (texts mailboxes.now))
            → IsOkUnless result DirectoryFault.NoMemory }
    {
        if let Some(fault) = fault_of(domains, mailboxes) {
            return Err(fault);
        }
        let domains = stored_names(alloc, domains)?;
        let homes = stored_homes(alloc, mailboxes)?;
        let shut = Vec::from_elem(alloc, false, usize::from(shards))?;
        Ok(Directory {
            domains,
            homes,
            shards,
            shut,
        })
    }

    /// The number of the mailbox that a value names.
    fn find(&self, value: LocalValue<'_>) -> Result<u8, NoSuch>
        ensures value { result ≡ numbered self.now (wanted (value_left value.entry)) }
        ensures within { IfOk result (λ n. n < length self.now.homes) }
    {
        match position_of_sought(&self.homes, &Sought::new(value)) {
            Some(index) => Ok(index as u8),
            None => Err(NoSuch::User),
        }
    }

    /// Whether the domain is one of this server's, in upper or lower case.
    fn has_domain(&self, domain: &[u8]) -> bool
        ensures { result ≡ list_any (is_same domain.now) self.now.domains }
    {
        self.domains
            .iter()
            .any(|own| domain.eq_ignore_ascii_case(own.as_bytes()))
    }

    /// The number of the mailbox that a path names: the user before the first `+` of its local
    /// part's value, and the folder behind it, in upper or lower case; INBOX is the user's own.
    /// `<postmaster>` is the user of that name, whatever the domain. Takes no memory.
    ///
    /// Errors: `System` for a domain that isn't one of this server's; else `User` where there is
    /// no such mailbox.
    pub fn lookup(&self, path: ForwardPath<'_>) -> Result<u8, NoSuch>
        ensures value { result ≡ lookup self.now (forward_path path.entry) }
        ensures within { IfOk result (λ n. n < length self.now.homes) }
    {
        match path {
            ForwardPath::Postmaster => self.find(LocalValue::of(b"postmaster")),
            ForwardPath::Recipient(mailbox) => {
                if !self.has_domain(mailbox.domain) {
                    return Err(NoSuch::System);
                }
                self.find(LocalValue::of(mailbox.local))
            }
        }
    }

    /// The number of the mailbox that a word names, compared byte by byte, as `alice` or `alice/Work`.
    pub fn number_of(&self, word: &[u8]) -> Option<u8>
        ensures value { result ≡ number_of self.now word.now }
        ensures within { IfSome result (λ n. n < length self.now.homes) }
    {
        match position_of_word(&self.homes, Word::cut(word)) {
            Some(index) => Some(index as u8),
            None => None,
        }
    }

    /// How many mailboxes there are, at most 64.
    pub fn mailboxes(&self) -> usize
        ensures value { result ≡ length self.now.homes }
        ensures most { result ≤ 64 }
    {
        self.homes.len()
    }

    /// The user of a mailbox.
    pub fn user_of(&self, mailbox: u8) -> &[u8]
        requires { mailbox < length self.now.homes }
        ensures { IfSome (slice_get self.now.homes mailbox) (λ home. result.now ≡ home.user) }
    {
        self.homes[mailbox as usize].user.as_bytes()
    }

    /// The folder of a mailbox, or nothing for a user's INBOX.
    pub fn folder_of(&self, mailbox: u8) -> Option<&[u8]>
        requires { mailbox < length self.now.homes }
        ensures { IfSome (slice_get self.now.homes mailbox) (λ home. option_copied result
            ≡ home.folder) }
    {
        let home = &self.homes[mailbox as usize];
        match &home.folder {
            Some(folder) => Some(folder.as_bytes()),
            None => None,
        }
    }

    /// How many shards keep them, at least 1.
    pub fn shards(&self) -> u8
        ensures value { result ≡ self.now.shards }
        ensures some { 0 < result }
    {
        self.shards
    }

    /// The shard that keeps a mailbox.
    pub fn shard_of(&self, mailbox: u8) -> usize
        ensures value { result ≡ shard_of self.now mailbox }
        ensures within { result < self.now.shards }
    {
        usize::from(mailbox % self.shards)
    }

    /// A directory of its own with the same mailboxes and the same marks: a mark that is made in one of
    /// them later is none in the other. The only error is that memory is refused.
    pub fn copy(&self, alloc: Global) -> Result<Directory, AllocError>
        ensures same { IfOk result (λ d. d ≡ self.now) }
        // Each of its shards has a mark.
        ensures marks { IfOk result (λ d. length d.shut ≡ d.shards) }
    {
        let domains = copied_names(alloc, &self.domains)?;
        let homes = copied_homes(alloc, &self.homes)?;
        let shut = Vec::from_slice(alloc, &self.shut)?;
        Ok(Directory {
            domains,
            homes,
            shards: self.shards,
            shut,
        })
    }

    /// Marks a shard as shut, for good: mail for its mailboxes is to be taken no more. Takes no
    /// memory, and all else stays as it is.
    pub fn shut(&mut self, shard: u8)
        requires { shard < self.old.shards }
        ensures { self.new ≡ marked (slice_set self.old.shut shard true) self.old }
    {
        self.shut[usize::from(shard)] = true;
    }

    /// Whether a shard is marked as shut; one that isn't there is not.
    pub fn is_shut(&self, shard: usize) -> bool
        ensures { result ≡ is_shut self.now shard }
    {
        match self.shut.get(shard) {
            Some(shut) => *shut,
            None => false,
        }
    }
}
