//! What the words of a command line ask for, and the settings that they come to.

ghost use Rattle.std.specs.Prelude.{◌≡◌, ◌≢◌, ◌≤◌, ◌<◌, [], codes, false, length, map, IfOk, IfSome, MatchResult, OnOk, Some};
ghost use Rattle.std.specs.Char.{is_ascii_digit};
ghost use Rattle.std.specs.List.{list_all};
ghost use Rattle.clap.specs.Words.{IsAmong, app_of, first_of, found_of, kind_of, rows_of, subcommand_rows_of};
ghost use Rattle.settings.specs.Settings.{IsDefault, IsFrom, IsInRange, most_sessions};
ghost use Rattle.command_line.specs.Asking.{AsksBy, AsksFor, AsksForScript, GivesMemory, IsAskedInRange, IsSize};
ghost use Rattle.command_line.specs.Asking.{form_given, is_flag, is_given, limit_of, mailboxes_given, number_given, port_of, reporting_given, server_shards, text_given, uidvalidity_given};
ghost use Rattle.command_line.specs.Words as words_taken;
ghost use Rattle.command_line.specs.inner.Sizes.{IsSizeIn, bytes_of};

use crate::options::{
    COMPATIBLE, DEPTH, FIRST_UID, Helps, IMAP_PORT, JSON, LMTP_PORT, LOG, MAX_MESSAGE, MEMORY,
    MESSAGES, NumberOption, RING, RING_MAX, SESSIONS, SHARDS, STATUS_PORT, UIDVALIDITY, WORKERS,
    command_line,
};
use clap::error::ErrorKind;
use clap::{ArgMatches, Command, Error};
use settings::numbers::{LEAST_IMAP_PORT, SESSIONS as STANDARD_SESSIONS, sessions_of};
use settings::{Config, Form, Reporting, Uidvalidity};
use std::alloc::{AllocError, Global};
use std::convert::AsStr;

/// What the words ask for.
#[derive(Drop)]
pub enum Asked {
    /// A script from the input.
    Script {
        /// The settings of its house.
        config: Config,
        /// How what its lines print is told.
        form: Form,
    },
    /// A server with these settings.
    Serve {
        /// The settings, its ports and numbers of threads among them.
        config: Config,
        /// Whether the UIDVALIDITY among them was given, or is the default: of that the server warns.
        uidvalidity: Uidvalidity,
        /// What it is to tell of what happens.
        report: Reporting,
    },
}

/// What clap takes, and the program doesn't.
#[derive(Drop)]
enum Refused<'a> {
    /// A number that is spelled with more than digits, as `+5`.
    Spelling(&'static str, &'a str),
    /// A port of this option that is neither 0 nor 1024 or more.
    LowPort(&'static str, u64),
    /// So many sessions of one user are more than the standard profile has.
    Sessions(u64),
    /// A limit on memory that is no size, or one of more bytes than can be counted.
    Size(&'a str),
    /// There is no mailbox.
    NoMailbox,
    /// There is no subcommand.
    NothingToDo,
    /// Memory was refused.
    NoMemory,
}

impl<'a> From<AllocError> for Refused<'a> {
    ghost use Rattle.command_line.specs.declared.asked.Refused.{Refused};

    ghost from_gives = { λ _ refused. refused ≡ Refused.NoMemory };

    fn from(_error: AllocError) -> Refused<'a> {
        Refused::NoMemory
    }
}

fn are_digits(text: &[u8]) -> bool
    ensures { result ≡ list_all is_ascii_digit text.now }
{
    text.iter().all(|byte| byte.is_ascii_digit())
}

// The number that was given, or else its default.
fn given<'a>(
    matches: &ArgMatches<'a>,
    option: NumberOption,
    default: u64,
) -> Result<u64, Refused<'a>>
    requires { IsFrom option.number.least option.number.most default }
    ensures range { IfOk result (IsFrom option.number.least option.number.most) }
    ensures value { IfOk result (λ n.
        n ≡ number_given (rows_of (found_of matches.now)) option.name.now default) }
{
    let Some(text) = matches.get_str(option.name) else {
        return Ok(default);
    };
    match text.parse::<u64>() {
        Ok(value) if are_digits(text.as_bytes()) && option.number.allows(value) => Ok(value),
        _ => Err(Refused::Spelling(option.name, text)),
    }
}

// A port of this option, which is 0 or high enough.
fn allowed_port<'a>(name: &'static str, port: u64) -> Result<u16, Refused<'a>>
    requires { port ≤ 65535 }
    ensures same { IfOk result (λ n. n ≡ port) }
    ensures least { IfOk result (λ n. n ≢ 0 → 1024 ≤ n) }
{
    if port == 0 {
        return Ok(0);
    }
    if port < LEAST_IMAP_PORT {
        return Err(Refused::LowPort(name, port));
    }
    Ok(port as u16)
}

// The port of the first user that was given, or else its default.
fn given_user_port<'a>(matches: &ArgMatches<'a>, default: u16) -> Result<u16, Refused<'a>>
    requires most { default ≤ 65472 }
    requires least { default ≢ 0 → 1024 ≤ default }
    ensures most { IfOk result (λ n. n ≤ 65472) }
    ensures least { IfOk result (λ n. n ≢ 0 → 1024 ≤ n) }
    ensures value { IfOk result (λ n.
        n ≡ number_given (rows_of (found_of matches.now)) (codes "imap-port") default) }
{
    let port = given(matches, IMAP_PORT, u64::from(default))?;
    allowed_port(IMAP_PORT.name, port)
}

// The port of the page, where one was given.
fn given_page_port<'a>(matches: &ArgMatches<'a>) -> Result<Option<u16>, Refused<'a>>
    ensures { IfOk result (λ port.
        port ≡ port_of (first_of (codes "status-port") (rows_of (found_of matches.now)))) }
{
    let Some(_text) = matches.get_str(STATUS_PORT.name) else {
        return Ok(None);
    };
    let number = given(matches, STATUS_PORT, 0)?;
    let port = allowed_port(STATUS_PORT.name, number)?;
    Ok(Some(port))
}

// The sessions of each user that were given, or else their default: no more than the profile has.
fn given_sessions<'a>(
    matches: &ArgMatches<'a>,
    compatible: bool,
    default: u8,
) -> Result<u8, Refused<'a>>
    requires { IsFrom 1 (most_sessions compatible) default }
    ensures range { IfOk result (IsFrom 1 (most_sessions compatible)) }
    ensures value { IfOk result (λ n.
        n ≡ number_given (rows_of (found_of matches.now)) (codes "sessions") default) }
{
    let count = given(matches, SESSIONS, u64::from(default))?;
    if !sessions_of(compatible).allows(count) {
        return Err(Refused::Sessions(count));
    }
    Ok(count as u8)
}

/// What a size is counted in, by what stands behind its digits.
#[derive(Clone, Copy)]
enum Unit {
    /// Nothing stands there.
    Byte,
    /// K stands there.
    Kibibyte,
    /// M stands there.
    Mebibyte,
    /// G stands there.
    Gibibyte,
}

impl Unit {
    // So many bytes is one.
    fn bytes(self) -> u64
        ensures { result ≡ bytes_of self }
    {
        match self {
            Unit::Byte => 1,
            Unit::Kibibyte => 1 << 10,
            Unit::Mebibyte => 1 << 20,
            Unit::Gibibyte => 1 << 30,
        }
    }
}

// So many bytes are as many of this unit as these digits say. None where they are no digits, or the bytes can't be counted.
fn bytes_in(digits: &str, unit: Unit) -> Option<u64>
    ensures { IfSome result (IsSizeIn digits.now unit) }
{
    if !are_digits(digits.as_bytes()) {
        return None;
    }
    let Ok(count) = digits.parse::<u64>() else {
        return None;
    };
    count.checked_mul(unit.bytes())
}

// The bytes that this size says. None where it is no size, or they can't be counted.
fn size_of(text: &str) -> Option<u64>
    ensures { IfSome result (IsSize text.now) }
{
    if let Some(digits) = text.strip_suffix('K') {
        return bytes_in(digits, Unit::Kibibyte);
    }
    if let Some(digits) = text.strip_suffix('M') {
        return bytes_in(digits, Unit::Mebibyte);
    }
    if let Some(digits) = text.strip_suffix('G') {
        return bytes_in(digits, Unit::Gibibyte);
    }
    bytes_in(text, Unit::Byte)
}

// The limit that a size is: no bytes are none.
fn limit_of(size: u64) -> Option<u64>
    ensures { result ≡ limit_of size }
{
    if size == 0 {
        return None;
    }
    Some(size)
}

// The limit on the bytes of texts, where one was given.
fn given_memory<'a>(matches: &ArgMatches<'a>) -> Result<Option<u64>, Refused<'a>>
    ensures { IfOk result
        (GivesMemory (first_of (codes "memory") (rows_of (found_of matches.now)))) }
{
    let Some(text) = matches.get_str(MEMORY) else {
        return Ok(None);
    };
    let Some(size) = size_of(text) else {
        return Err(Refused::Size(text));
    };
    Ok(limit_of(size))
}

// A name is set where one was given.
fn set_name<'a>(
    alloc: Global,
    matches: &ArgMatches<'a>,
    name: &str,
    value: &mut Vec<u8>,
) -> Result<(), AllocError>
    ensures { OnOk result (value.new.items
        ≡ text_given (rows_of (found_of matches.now)) name.now value.old.items) }
{
    let Some(text) = matches.get_str(name) else {
        return Ok(());
    };
    *value = Vec::from_slice(alloc, text.as_bytes())?;
    Ok(())
}

// The bytes of each of these words.
fn bytes_of<'a>(alloc: Global, words: &[&'a str]) -> Result<Vec<&'a [u8]>, AllocError>
    ensures { IfOk result (λ bytes. map (λ word. word.now) bytes.items
        ≡ map (λ word. word.now) words.now) }
{
    let mut bytes = Vec::new(alloc);
    for word in words {
        bytes.push(word.as_bytes())?;
    }
    Ok(bytes)
}

// The words of the mailboxes.
fn mailboxes_of<'a>(alloc: Global, matches: &ArgMatches<'a>) -> Result<Vec<&'a [u8]>, Refused<'a>>
    ensures some { IfOk result (λ words. 0 < length words.items) }
    ensures given { IfOk result (λ words. map (λ word. word.now) words.items
        ≡ mailboxes_given (rows_of (found_of matches.now))) }
{
    let Some(given) = matches.get_strs("MAILBOX") else {
        return Err(Refused::NoMailbox);
    };
    let words = bytes_of(alloc, given)?;
    if words.is_empty() {
        return Err(Refused::NoMailbox);
    }
    Ok(words)
}

// The names that were given are set.
fn set_names<'a>(
    alloc: Global,
    matches: &ArgMatches<'a>,
    config: &mut Config,
) -> Result<(), Refused<'a>>
    requires { IsInRange config.old }
    ensures range { IsInRange config.new }
    ensures host { OnOk result (config.new.host.items
        ≡ text_given (rows_of (found_of matches.now)) (codes "host") config.old.host.items) }
    ensures domain { OnOk result (config.new.domain.items
        ≡ text_given (rows_of (found_of matches.now)) (codes "domain") config.old.domain.items) }
    ensures rest { config.new
        ≡ record config.old { host = config.new.host; domain = config.new.domain } }
{
    set_name(alloc, matches, "host", &mut config.host)?;
    set_name(alloc, matches, "domain", &mut config.domain)?;
    Ok(())
}

// The sizes that were given are set.
fn set_sizes<'a>(matches: &ArgMatches<'a>, config: &mut Config) -> Result<(), Refused<'a>>
    requires { IsInRange config.old }
    ensures range { IsInRange config.new }
    ensures shards { OnOk result (config.new.shards
        ≡ number_given (rows_of (found_of matches.now)) (codes "shards") config.old.shards) }
    ensures depth { OnOk result (config.new.depth
        ≡ number_given (rows_of (found_of matches.now)) (codes "depth") config.old.depth) }
    ensures messages { OnOk result (config.new.messages
        ≡ number_given (rows_of (found_of matches.now)) (codes "messages") config.old.messages) }
    ensures max_message { OnOk result (config.new.max_message
        ≡ number_given (rows_of (found_of matches.now)) (codes "max-message")
        config.old.max_message) }
    ensures rest { config.new
        ≡ record config.old {
          shards = config.new.shards;
          depth = config.new.depth;
          messages = config.new.messages;
          max_message = config.new.max_message;
        } }
{
    config.shards = given(matches, SHARDS, u64::from(config.shards))? as u8;
    config.depth = given(matches, DEPTH, config.depth as u64)? as usize;
    config.messages = given(matches, MESSAGES, config.messages as u64)? as usize;
    config.max_message = given(matches, MAX_MESSAGE, config.max_message as u64)? as usize;
    Ok(())
}

// The windows' sizes that were given are set.
fn set_windows<'a>(matches: &ArgMatches<'a>, config: &mut Config) -> Result<(), Refused<'a>>
    requires { IsInRange config.old }
    ensures range { IsInRange config.new }
    ensures ring { OnOk result (config.new.ring
        ≡ number_given (rows_of (found_of matches.now)) (codes "ring") config.old.ring) }
    ensures ring_max { OnOk result (config.new.ring_max
        ≡ number_given (rows_of (found_of matches.now)) (codes "ring-max") config.old.ring_max) }
    ensures rest { config.new
        ≡ record config.old { ring = config.new.ring; ring_max = config.new.ring_max } }
{
    config.ring = given(matches, RING, config.ring as u64)? as usize;
    config.ring_max = given(matches, RING_MAX, config.ring_max as u64)? as usize;
    Ok(())
}

// The UIDs that were given are set, and the profile, which is the standard one before.
fn set_uids_and_profile<'a>(
    matches: &ArgMatches<'a>,
    config: &mut Config,
) -> Result<(), Refused<'a>>
    requires range { IsInRange config.old }
    requires standard { config.old.compatible ≡ false }
    ensures range { IsInRange config.new }
    ensures uidvalidity { OnOk result (config.new.uidvalidity
        ≡ number_given (rows_of (found_of matches.now)) (codes "uidvalidity")
        config.old.uidvalidity) }
    ensures first_uid { OnOk result (config.new.first_uid
        ≡ number_given (rows_of (found_of matches.now)) (codes "first-uid") config.old.first_uid) }
    ensures compatible { OnOk result (config.new.compatible
        ≡ is_given (codes "compatible") (rows_of (found_of matches.now))) }
    ensures rest { config.new
        ≡ record config.old {
          uidvalidity = config.new.uidvalidity;
          first_uid = config.new.first_uid;
          compatible = config.new.compatible;
        } }
{
    config.uidvalidity = given(matches, UIDVALIDITY, u64::from(config.uidvalidity))? as u32;
    config.first_uid = given(matches, FIRST_UID, u64::from(config.first_uid))? as u32;
    config.compatible = is_given(matches, COMPATIBLE);
    Ok(())
}

// How many shards a server of so many mailboxes has where that isn't given.
fn server_shards(mailboxes: usize) -> u64
    ensures value { result ≡ server_shards mailboxes }
    ensures range { IsFrom 1 8 result }
{
    mailboxes.min(8).max(1) as u64
}

// A server's shards are set: where they aren't given there is one for each mailbox, as far as that goes.
fn set_server_shards<'a>(matches: &ArgMatches<'a>, config: &mut Config) -> Result<(), Refused<'a>>
    requires { IsInRange config.old }
    ensures range { IsInRange config.new }
    ensures shards { OnOk result (config.new.shards
        ≡ number_given (rows_of (found_of matches.now)) (codes "shards")
        (server_shards (length config.old.mailboxes.items))) }
    ensures rest { config.new ≡ record config.old { shards = config.new.shards } }
{
    let default = server_shards(config.mailboxes.len());
    config.shards = given(matches, SHARDS, default)? as u8;
    Ok(())
}

// What a server alone is given is set.
fn set_server<'a>(matches: &ArgMatches<'a>, config: &mut Config) -> Result<(), Refused<'a>>
    requires { IsInRange config.old }
    ensures range { IsInRange config.new }
    ensures lmtp_port { OnOk result (config.new.lmtp_port
        ≡ number_given (rows_of (found_of matches.now)) (codes "lmtp-port") config.old.lmtp_port) }
    ensures imap_port { OnOk result (config.new.imap_port
        ≡ number_given (rows_of (found_of matches.now)) (codes "imap-port") config.old.imap_port) }
    ensures workers { OnOk result (config.new.workers
        ≡ number_given (rows_of (found_of matches.now)) (codes "workers") config.old.workers) }
    ensures sessions { OnOk result (config.new.sessions
        ≡ number_given (rows_of (found_of matches.now)) (codes "sessions") config.old.sessions) }
    ensures memory { OnOk result
        (GivesMemory (first_of (codes "memory") (rows_of (found_of matches.now)))
        config.new.memory) }
    ensures rest { config.new
        ≡ record config.old {
          lmtp_port = config.new.lmtp_port;
          imap_port = config.new.imap_port;
          workers = config.new.workers;
          sessions = config.new.sessions;
          memory = config.new.memory;
        } }
{
    config.lmtp_port = given(matches, LMTP_PORT, u64::from(config.lmtp_port))? as u16;
    config.imap_port = given_user_port(matches, config.imap_port)?;
    config.workers = given(matches, WORKERS, u64::from(config.workers))? as u8;
    config.sessions = given_sessions(matches, config.compatible, config.sessions)?;
    config.memory = given_memory(matches)?;
    Ok(())
}

// What either subcommand may be given is set.
fn set_given<'a>(
    alloc: Global,
    matches: &ArgMatches<'a>,
    config: &mut Config,
) -> Result<(), Refused<'a>>
    requires range { IsInRange config.old }
    requires standard { config.old.compatible ≡ false }
    ensures range { IsInRange config.new }
    ensures given { OnOk result
        (IsDefault config.old (mailboxes_given (rows_of (found_of matches.now)))
        → AsksForScript (rows_of (found_of matches.now)) config.new) }
{
    set_names(alloc, matches, config)?;
    set_sizes(matches, config)?;
    set_windows(matches, config)?;
    set_uids_and_profile(matches, config)?;
    Ok(())
}

// The defaults, with the mailboxes of these words.
fn defaults<'a>(alloc: Global, matches: &ArgMatches<'a>) -> Result<Config, Refused<'a>>
    ensures range { IfOk result IsInRange }
    ensures default { IfOk result (λ config.
        IsDefault config (mailboxes_given (rows_of (found_of matches.now)))) }
{
    let words = mailboxes_of(alloc, matches)?;
    Ok(Config::new(alloc, &words)?)
}

// The settings that the options and words of either subcommand come to.
fn settings_of<'a>(alloc: Global, matches: &ArgMatches<'a>) -> Result<Config, Refused<'a>>
    ensures range { IfOk result IsInRange }
    ensures given { IfOk result (AsksForScript (rows_of (found_of matches.now))) }
{
    let mut config = defaults(alloc, matches)?;
    set_given(alloc, matches, &mut config)?;
    Ok(config)
}

// Whether a UIDVALIDITY was given.
fn uidvalidity_of<'a>(matches: &ArgMatches<'a>) -> Uidvalidity
    ensures { result ≡ uidvalidity_given (rows_of (found_of matches.now)) }
{
    match matches.get_str(UIDVALIDITY.name) {
        Some(_) => Uidvalidity::Given,
        None => Uidvalidity::Default,
    }
}

// Whether an option is given that has no value, by the one that clap gives it.
fn is_flag(value: &str) -> bool
    ensures { result ≡ is_flag (Some value.now) }
{
    value == "true"
}

// Whether an option is given that has no value.
fn is_given<'a>(matches: &ArgMatches<'a>, name: &str) -> bool
    ensures { result ≡ is_given name.now (rows_of (found_of matches.now)) }
{
    match matches.get_str(name) {
        Some(value) => is_flag(value),
        None => false,
    }
}

// What a server is to tell.
fn reporting_of<'a>(matches: &ArgMatches<'a>) -> Result<Reporting, Refused<'a>>
    ensures { IfOk result (λ report. report ≡ reporting_given (rows_of (found_of matches.now))) }
{
    let status = given_page_port(matches)?;
    Ok(Reporting {
        log: is_given(matches, LOG),
        status,
    })
}

// What the options and words of `serve` ask for.
fn server_of<'a>(alloc: Global, matches: &ArgMatches<'a>) -> Result<Asked, Refused<'a>>
    ensures range { IfOk result IsAskedInRange }
    ensures asks { IfOk result (AsksBy (Some (codes "serve", rows_of (found_of matches.now)))) }
{
    let mut config = settings_of(alloc, matches)?;
    set_server_shards(matches, &mut config)?;
    set_server(matches, &mut config)?;
    let report = reporting_of(matches)?;
    Ok(Asked::Serve {
        config,
        uidvalidity: uidvalidity_of(matches),
        report,
    })
}

// In which form a script is told.
fn form_of<'a>(matches: &ArgMatches<'a>) -> Form
    ensures { result ≡ form_given (rows_of (found_of matches.now)) }
{
    if is_given(matches, JSON) {
        Form::Json
    } else {
        Form::Text
    }
}

// What the options and words of `script` ask for.
fn script_of<'a>(alloc: Global, matches: &ArgMatches<'a>) -> Result<Asked, Refused<'a>>
    ensures range { IfOk result IsAskedInRange }
    ensures asks { IfOk result (AsksBy (Some (codes "script", rows_of (found_of matches.now)))) }
{
    let config = settings_of(alloc, matches)?;
    Ok(Asked::Script {
        config,
        form: form_of(matches),
    })
}

// What the words ask for whose subcommand isn't `script`.
fn served_in<'a>(alloc: Global, matches: &ArgMatches<'a>) -> Result<Asked, Refused<'a>>
    ensures range { IfOk result IsAskedInRange }
    ensures asks { IfOk result (AsksBy (subcommand_rows_of matches.now)) }
{
    let Some(serve) = matches.subcommand_matches("serve") else {
        return Err(Refused::NothingToDo);
    };
    server_of(alloc, serve)
}

// What the words ask for, by their subcommand.
fn asked_in<'a>(alloc: Global, matches: &ArgMatches<'a>) -> Result<Asked, Refused<'a>>
    ensures range { IfOk result IsAskedInRange }
    ensures asks { IfOk result (AsksBy (subcommand_rows_of matches.now)) }
{
    match matches.subcommand_matches("script") {
        Some(script) => script_of(alloc, script),
        None => served_in(alloc, matches),
    }
}

// The mistake in a number that is spelled with more than digits.
fn misspelled<'a>(
    alloc: Global,
    command: &mut Command<'a>,
    name: &str,
    text: &str,
) -> Result<Error, AllocError>
    ensures { IfOk result (λ e. kind_of e ≡ ErrorKind.ValueValidation) }
{
    let text = format!(in alloc; "invalid value '{text}' for '--{name}': only digits are read")?;
    command.error(ErrorKind::ValueValidation, &text)
}

// The mistake in a port that is too low.
fn too_low<'a>(
    alloc: Global,
    command: &mut Command<'a>,
    name: &str,
    port: u64,
) -> Result<Error, AllocError>
    ensures { IfOk result (λ e. kind_of e ≡ ErrorKind.ValueValidation) }
{
    let reason = format!(in alloc;
        "invalid value '{}' for '--{}': it is neither 0 nor {} or more",
        port, name, LEAST_IMAP_PORT
    )?;
    command.error(ErrorKind::ValueValidation, &reason)
}

// The mistake in more sessions than the standard profile has.
fn too_many_sessions<'a>(
    alloc: Global,
    command: &mut Command<'a>,
    count: u64,
) -> Result<Error, AllocError>
    ensures { IfOk result (λ e. kind_of e ≡ ErrorKind.ValueValidation) }
{
    let reason = format!(in alloc;
        "invalid value '{}' for '--{}': without --{} it is not more than {}",
        count, SESSIONS.name, COMPATIBLE, STANDARD_SESSIONS.most
    )?;
    command.error(ErrorKind::ValueValidation, &reason)
}

// The mistake in a limit that is no size, or too large a one.
fn no_size<'a>(alloc: Global, command: &mut Command<'a>, text: &str) -> Result<Error, AllocError>
    ensures { IfOk result (λ e. kind_of e ≡ ErrorKind.ValueValidation) }
{
    let reason = format!(in alloc;
        "invalid value '{}' for '--{}': only digits are read, with nothing, K, M or G behind them, up to {} bytes",
        text,
        MEMORY,
        u64::MAX
    )?;
    command.error(ErrorKind::ValueValidation, &reason)
}

// What clap tells of a mistake that it didn't find itself.
fn error_of<'a>(
    alloc: Global,
    command: &mut Command<'a>,
    refused: Refused<'a>,
) -> Result<Error, AllocError>
    ensures { IfOk result (λ e. IsAmong (kind_of e) words_taken.own_faults) }
{
    match refused {
        Refused::Spelling(name, text) => misspelled(alloc, command, name, text),
        Refused::LowPort(name, port) => too_low(alloc, command, name, port),
        Refused::Sessions(count) => too_many_sessions(alloc, command, count),
        Refused::Size(text) => no_size(alloc, command, text),
        Refused::NoMailbox => {
            command.error(ErrorKind::MissingRequiredArgument, "there is no mailbox")
        }
        Refused::NothingToDo => command.error(
            ErrorKind::MissingSubcommand,
            "there is nothing to do",
        ),
        Refused::NoMemory => Err(AllocError),
    }
}

// What the words ask for, by this command.
fn asked_by<'a, S: AsStr>(
    alloc: Global,
    mut command: Command<'a>,
    words: &'a [S],
) -> Result<Asked, Error>
    requires { app_of command ≡ words_taken.program }
    ensures range { IfOk result IsAskedInRange }
    ensures asks { IfOk result (AsksFor (map S.text words.entry.now)) }
    ensures answered { MatchResult result (λ asked.
        words_taken.faults_at (map S.text words.entry.now) ≡ [])
        (λ e. words_taken.FailsWith (words_taken.faults_at (map S.text words.entry.now))
        (kind_of e)) }
{
    let matches = command.try_get_matches_from_mut(words)?;
    match asked_in(alloc, &matches) {
        Ok(asked) => Ok(asked),
        Err(refused) => Err(error_of(alloc, &mut command, refused)?),
    }
}

/// What these words ask for, the first of which is the program's name: `script` or `serve`, options, mailboxes; each setting is what is
/// given for it, or its default. A script is told in JSON where `--json` is given. Each number is in its range, and there is a mailbox; names are not looked at, nor whether the ports are
/// right.
///
/// The error is clap's: a mistake in the words, a number that is out of its range or has other than digits, a port of users or of
/// the page from 1 to 1023, more than 4 sessions of a user without `--compatible`, a limit on memory that is no size, or a request
/// for help; of kind `OutOfMemory` where memory is refused.
pub fn asked_of<'a, S: AsStr>(alloc: Global, words: &'a [S]) -> Result<Asked, Error>
    ensures range { IfOk result IsAskedInRange }
    ensures asks { IfOk result (AsksFor (map S.text words.entry.now)) }
    ensures answered { MatchResult result (λ asked.
        words_taken.faults_at (map S.text words.entry.now) ≡ [])
        (λ e. words_taken.FailsWith (words_taken.faults_at (map S.text words.entry.now))
        (kind_of e)) }
{
    let helps = Helps::new(alloc)?;
    asked_by(alloc, command_line(alloc, &helps)?, words)
}
