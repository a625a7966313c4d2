//! The directory of the mailboxes that the settings name, and the first thing that is wrong with the settings. The settings themselves
//! and their ranges stand in `config`.

ghost use Rattle.std.specs.Prelude.{◌≡◌, ◌<◌, ◌⊎◌, [], ◌∷◌, length, map, IfOk, IfErr, IfSome, IsOk, IsOkUnless, Ok, Err, None};
ghost use Rattle.envelope.specs.Names.{none_shut, texts, words_read};
ghost use Rattle.settings.specs.Settings.{IsInRange, are_ports_wrong, config_fault, directory_for, fault_named, fault_of_numbers, has_slash, is_ring_wrong, users_in, words_of};

use crate::config::{Config, ConfigFault};
use envelope::{Directory, MOST_MAILBOXES, is_name};
use std::alloc::{AllocError, Global};

/// Where mail comes by SMTP, which an LMTP server must keep away from (RFC 2033, 5).
const SMTP_PORT: u16 = 25;

// The words where they lie.
fn borrowed_words(alloc: Global, words: &[Vec<u8>]) -> Result<Vec<&[u8]>, AllocError>
    ensures { IfOk result (λ v. texts v.items ≡ map (λ w. w.items) words.entry.now) }
{
    let mut borrowed = Vec::new(alloc);
    for word in words {
        borrowed.push(word.as_slice())?;
    }
    Ok(borrowed)
}

// The directory of the mailboxes, where all names are right.
fn named_directory(alloc: Global, config: &Config) -> Result<Directory, ConfigFault>
    requires { 0 < config.now.shards }
    ensures homes { IfOk result (λ d.
        words_read (config.now.host.items ∷ config.now.domain.items ∷ []) (words_of config.now)
        ≡ Ok d.homes) }
    ensures domains { IfOk result (λ d. d.domains ≡ config.now.domain.items ∷ []) }
    ensures shards { IfOk result (λ d. d.shards ≡ config.now.shards) }
    ensures shut { IfOk result (λ d. d.shut ≡ none_shut config.now.shards) }
    ensures host { IfOk result (λ d. length config.now.host.items < 256) }
    ensures fault { IfErr (words_read (config.now.host.items ∷ config.now.domain.items
        ∷ []) (words_of config.now))
        (λ fault. (result ≡ Err (fault_named fault)) ⊎ (result ≡ Err ConfigFault.NoMemory)) }
    ensures made { IsOk (words_read (config.now.host.items ∷ config.now.domain.items
        ∷ []) (words_of config.now)) →
        IsOkUnless result ConfigFault.NoMemory }
{
    if config.mailboxes.len() > MOST_MAILBOXES {
        return Err(ConfigFault::TooMany);
    }
    if !is_name(&config.host) {
        return Err(ConfigFault::BadName);
    }
    let words = borrowed_words(alloc, &config.mailboxes)?;
    match Directory::new(alloc, &[config.domain.as_slice()], &words, config.shards) {
        Ok(directory) => Ok(directory),
        Err(fault) => Err(ConfigFault::from(fault)),
    }
}

// Whether the settings' window is too small, or its most too little.
fn is_ring_wrong(config: &Config) -> bool
    requires { IsInRange config.now }
    ensures { result ≡ is_ring_wrong config.now }
{
    config.ring < 2 * config.messages || (config.ring_max != 0 && config.ring_max < config.ring)
}

// Whether the word names a folder.
fn has_slash(word: &[u8]) -> bool
    ensures { result ≡ has_slash word.now }
{
    word.iter().any(|byte| *byte == b'/')
}

// How many of the settings' words name a user.
fn users_in(config: &Config) -> usize
    ensures { result ≡ users_in config.now }
{
    config
        .mailboxes
        .iter()
        .filter(|word| !has_slash(word))
        .count()
}

// Whether mail is to come to a port where others rest.
fn are_ports_wrong(config: &Config) -> bool
    ensures { result ≡ are_ports_wrong config.now }
{
    let (port, first) = (usize::from(config.lmtp_port), usize::from(config.imap_port));
    config.lmtp_port == SMTP_PORT
        || (first != 0 && first <= port && port - first < users_in(config))
}

// What is wrong with the numbers.
#[tactic(auto, unfolding(crate::specs::Settings::fault_of_numbers))]
fn fault_of_numbers(config: &Config) -> Option<ConfigFault>
    requires { IsInRange config.now }
    ensures { result ≡ fault_of_numbers config.now }
{
    if is_ring_wrong(config) {
        return Some(ConfigFault::Ring);
    }
    if are_ports_wrong(config) {
        return Some(ConfigFault::Ports);
    }
    None
}

/// The directory that a house of these settings goes by.
///
/// Errors, the first that holds: `TooMany` for more than 64 mailboxes; `BadName` for the host, then for the domain; then the fault
/// of the first word that has one, `BadName` if it is spelled wrong or its user has no word before it, `Twice` if it names an
/// earlier one's mailbox in upper or lower case; `Ring` where the ring keeps fewer than two changes for each message, or its most
/// is not 0 and is less than it; `Ports` where mail is to come to port 25 or to a user's port that is given. In place of any of them, and where
/// nothing else is wrong, `NoMemory` if memory is refused.
pub fn directory_of(alloc: Global, config: &Config) -> Result<Directory, ConfigFault>
    // Each number is in its range, and there is a mailbox: `Config::is_in_range`.
    requires { IsInRange config.now }

    // The directory that the settings settle: their domain, a mailbox for each word, and no shard shut.
    ensures directory { IfOk result (λ d. d ≡ directory_for config.now) }

    // An answer means that nothing is wrong, and that the host's name has fewer than 256 bytes.
    ensures right { IfOk result (λ d. config_fault config.now ≡ None) }
    ensures host { IfOk result (λ d. length config.now.host.items < 256) }

    // Where something is wrong, the first fault that holds is the error, or NoMemory.
    ensures fault { IfSome (config_fault config.now) (λ fault. (result ≡ Err fault)
        ⊎ (result ≡ Err ConfigFault.NoMemory)) }

    // Where nothing is wrong, there is one, unless memory is refused.
    ensures made { config_fault config.now ≡ None → IsOkUnless result ConfigFault.NoMemory }
{
    let directory = named_directory(alloc, config)?;
    match fault_of_numbers(config) {
        Some(fault) => Err(fault),
        None => Ok(directory),
    }
}
