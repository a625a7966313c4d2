//! Which options and words the command line has, with the help of each, as clap takes them. What they come to is told in `asked`.

ghost use Rattle.std.specs.Prelude.{◌≡◌, ◌≤◌, ◌∷◌, [], IfOk, codes, false, length, map, true};
ghost use Rattle.clap.specs.Words.{app_of, rule_of, shape_of};
ghost use Rattle.clap.specs.declared.builder.command.Command.TheViews.{out-Command as fields_of};
ghost use Rattle.command_line.specs.Words as words;
ghost use Rattle.command_line.specs.inner.Words.{AreThere, HasMore, rule_for};

use clap::builder::ValueParser;
use clap::{Arg, ArgAction, Command};
use settings::numbers::{self, Number};
use settings::{DOMAIN, HOST};
use std::alloc::{AllocError, Global};

/// An option that sets a number. How far it may go, and its default, is the settings' to say.
#[derive(Clone, Copy)]
pub(crate) struct NumberOption {
    pub(crate) name: &'static str,
    help: &'static str,
    pub(crate) number: Number,
    // What the help says behind the default.
    besides: &'static str,
}

pub(crate) const SHARDS: NumberOption = NumberOption {
    name: "shards",
    help: "Shards that keep the mailboxes",
    number: numbers::SHARDS,
    besides: "; a server then has one for each mailbox, and 8 at most",
};

pub(crate) const DEPTH: NumberOption = NumberOption {
    name: "depth",
    help: "Entries that each shard's lane has room for",
    number: numbers::DEPTH,
    besides: "",
};

pub(crate) const RING: NumberOption = NumberOption {
    name: "ring",
    help: "Changes that each mailbox keeps, at least two for each message",
    number: numbers::RING,
    besides: "",
};

pub(crate) const RING_MAX: NumberOption = NumberOption {
    name: "ring-max",
    help: "Changes that each mailbox keeps at most, for clients that fall behind; 0 for no more than --ring",
    number: numbers::RING_MAX,
    besides: "",
};

pub(crate) const MESSAGES: NumberOption = NumberOption {
    name: "messages",
    help: "Messages that each mailbox may hold",
    number: numbers::MESSAGES,
    besides: "",
};

pub(crate) const MAX_MESSAGE: NumberOption = NumberOption {
    name: "max-message",
    help: "Bytes that a message's data may have",
    number: numbers::MAX_MESSAGE,
    besides: "",
};

pub(crate) const FIRST_UID: NumberOption = NumberOption {
    name: "first-uid",
    help: "The UID of each mailbox's first message",
    number: numbers::FIRST_UID,
    besides: "",
};

pub(crate) const UIDVALIDITY: NumberOption = NumberOption {
    name: "uidvalidity",
    help: "What each mailbox tells as its UIDVALIDITY; for a server one that grows from start to start",
    number: numbers::UIDVALIDITY,
    besides: "",
};

pub(crate) const LMTP_PORT: NumberOption = NumberOption {
    name: "lmtp-port",
    help: "The port that mail comes to, neither 25 nor a user's; 0 for a free one",
    number: numbers::LMTP_PORT,
    besides: "",
};

pub(crate) const IMAP_PORT: NumberOption = NumberOption {
    name: "imap-port",
    help: "The port of the first user's sessions, 1024 or more, and the others' follow; 0 for free ones",
    number: numbers::IMAP_PORT,
    besides: "",
};

pub(crate) const WORKERS: NumberOption = NumberOption {
    name: "workers",
    help: "Mail connections that are served at a time",
    number: numbers::WORKERS,
    besides: "",
};

pub(crate) const SESSIONS: NumberOption = NumberOption {
    name: "sessions",
    help: "Sessions of each user that are served at a time",
    number: numbers::COMPATIBLE_SESSIONS,
    besides: "; without --compatible 4 at most",
};

/// The port of a server's page, which has none where that isn't given.
pub(crate) const STATUS_PORT: NumberOption = NumberOption {
    name: "status-port",
    help: "The port of a page over HTTP that tells what the server is doing, 1024 or more; 0 for a free one",
    number: Number {
        least: 0,
        most: 65_535,
        default: 0,
    },
    besides: "",
};

/// Whether what a script prints is told in JSON.
pub(crate) const JSON: &str = "json";

/// Whether sessions have the compatible profile.
pub(crate) const COMPATIBLE: &str = "compatible";

/// The most bytes that the texts of all messages may have together.
pub(crate) const MEMORY: &str = "memory";

/// Whether a server writes a log.
pub(crate) const LOG: &str = "log";

// What both subcommands may be given.
const HOUSE_OPTIONS: &[NumberOption] = &[
    SHARDS,
    DEPTH,
    RING,
    RING_MAX,
    MESSAGES,
    MAX_MESSAGE,
    UIDVALIDITY,
    FIRST_UID,
];

// What `serve` may be given besides.
const SERVER_OPTIONS: &[NumberOption] = &[LMTP_PORT, IMAP_PORT, WORKERS, SESSIONS];

// The program's version, and the logic that its proofs were checked by, as `rt version` names it.
const VERSION: &str = "0.2.0, proved with logic dac8208d650f15bf";

// An option that sets a number. Its help says what it is for, how far it may go, and its default.
fn option<'a>(alloc: Global, option: NumberOption, help: &'a str) -> Arg<'a>
    ensures rule { rule_of result ≡ rule_for option }
    ensures local { result.global ≡ false }
{
    Arg::new(alloc, option.name)
        .long(option.name)
        .help(help)
        .action(ArgAction::Set)
        .value_parser(ValueParser::unsigned(option.number.least, option.number.most))
}

// The help of each of these options.
fn helps_of(alloc: Global, options: &[NumberOption]) -> Result<Vec<String>, AllocError>
    ensures { IfOk result (λ helps. length helps.items ≡ length options.now) }
{
    let mut helps = Vec::new(alloc);
    for option in options {
        let number = option.number;
        let help = format!(in alloc;
            "{}: {} to {}, and {} where it is not given{}",
            option.help, number.least, number.most, number.default, option.besides
        )?;
        helps.push(help)?;
    }
    Ok(helps)
}

/// The help of all names and options. It is made before the command line, which borrows it.
#[derive(Drop)]
pub(crate) struct Helps {
    names: Vec<String>,
    house: Vec<String>,
    server: Vec<String>,
}

impl Helps {
    /// The help of each. An error where memory is refused.
    pub(crate) fn new(alloc: Global) -> Result<Helps, AllocError>
        ensures { IfOk result AreThere }
    {
        Ok(Helps {
            names: name_helps(alloc)?,
            house: helps_of(alloc, HOUSE_OPTIONS)?,
            server: helps_of(alloc, SERVER_OPTIONS)?,
        })
    }
}

// A subcommand with these options besides.
fn with_options<'a>(
    alloc: Global,
    subcommand: Command<'a>,
    options: &[NumberOption],
    helps: &'a [String],
) -> Result<Command<'a>, AllocError>
    requires { length options.now ≤ length helps.now }
    ensures { IfOk result (HasMore (map rule_for options.now) subcommand.entry) }
{
    let mut subcommand = subcommand;
    for index in 0..options.len() {
        subcommand = subcommand.arg(option(alloc, options[index], &helps[index]))?;
    }
    Ok(subcommand)
}

// A name that may be set. Which names are right is the settings' to say.
fn name<'a>(alloc: Global, name: &'static str, help: &'a str) -> Arg<'a>
    ensures rule { rule_of result ≡ words.name_rule name.now }
    ensures local { result.global ≡ false }
{
    Arg::new(alloc, name)
        .long(name)
        .help(help)
        .action(ArgAction::Set)
}

// The help of the names that may be set: the host's, and the domain's.
fn name_helps(alloc: Global) -> Result<Vec<String>, AllocError>
    ensures { IfOk result (λ helps. length helps.items ≡ 2) }
{
    let mut helps = Vec::new(alloc);
    helps.push(format!(in alloc;
        "The name that the house greets with: {} where it is not given",
        HOST
    )?)?;
    helps.push(format!(in alloc;
        "The domain that mail comes for: {} where it is not given",
        DOMAIN
    )?)?;
    Ok(helps)
}

// A subcommand with the names that may be set.
fn with_names_of<'a>(
    alloc: Global,
    subcommand: Command<'a>,
    helps: &'a [String],
) -> Result<Command<'a>, AllocError>
    requires { 2 ≤ length helps.now }
    ensures { IfOk result (HasMore (words.name_rule (codes "host")
        ∷ words.name_rule (codes "domain") ∷ []) subcommand.entry) }
{
    subcommand
        .arg(name(alloc, "host", &helps[0]))?
        .arg(name(alloc, "domain", &helps[1]))
}

// An option that is given or not.
fn flag<'a>(alloc: Global, name: &'static str, help: &'static str) -> Arg<'a>
    ensures rule { rule_of result ≡ words.flag_rule name.now }
    ensures local { result.global ≡ false }
{
    Arg::new(alloc, name)
        .long(name)
        .help(help)
        .action(ArgAction::SetTrue)
}

// The mailboxes, of which there is one at least.
fn mailboxes<'a>(alloc: Global) -> Arg<'a>
    ensures rule { rule_of result ≡ words.mailbox_rule }
    ensures local { result.global ≡ false }
{
    Arg::new(alloc, "MAILBOX")
        .help("A mailbox, `user` or `user/folder`")
        .action(ArgAction::Append)
        .num_args(1..)
        .required(true)
}

// Whether sessions have the compatible profile.
fn compatible<'a>(alloc: Global) -> Arg<'a>
    ensures rule { rule_of result ≡ words.flag_rule (codes "compatible") }
    ensures local { result.global ≡ false }
{
    flag(
        alloc,
        COMPATIBLE,
        "Sessions begin with a LOGIN, and have what fronts and clients of IMAP4rev1 want besides",
    )
}

// A subcommand with what both have: the options of a house, and its mailboxes.
fn with_house<'a>(
    alloc: Global,
    subcommand: Command<'a>,
    helps: &'a Helps,
) -> Result<Command<'a>, AllocError>
    requires { AreThere helps.now }
    ensures { IfOk result (HasMore words.house_rules subcommand.entry) }
{
    let named = with_names_of(alloc, subcommand, &helps.names)?;
    let numbered = with_options(alloc, named, HOUSE_OPTIONS, &helps.house)?;
    numbered.arg(compatible(alloc))?.arg(mailboxes(alloc))
}

// Whether what a script prints is told in JSON.
fn json<'a>(alloc: Global) -> Arg<'a>
    ensures rule { rule_of result ≡ words.flag_rule (codes "json") }
    ensures local { result.global ≡ false }
{
    flag(
        alloc,
        JSON,
        "Prints one JSON object for each line: its number, the line, and what it printed",
    )
}

// A subcommand with what `script` may be given besides.
fn with_script_options<'a>(
    alloc: Global,
    subcommand: Command<'a>,
) -> Result<Command<'a>, AllocError>
    ensures { IfOk result (HasMore words.script_rules subcommand.entry) }
{
    subcommand.arg(json(alloc))
}

// The most bytes of texts. Clap takes any text for it, and `asked` tells which are sizes.
fn memory<'a>(alloc: Global) -> Arg<'a>
    ensures rule { rule_of result ≡ words.name_rule (codes "memory") }
    ensures local { result.global ≡ false }
{
    Arg::new(alloc, MEMORY)
        .long(MEMORY)
        .help(
            "Bytes that the texts of messages may have together, as 800000, 800K, 800M or 2G; 0 for no limit, and 0 where it is not given",
        )
        .action(ArgAction::Set)
}

// A subcommand with what a server alone has, up to its log.
fn with_log<'a>(
    alloc: Global,
    subcommand: Command<'a>,
    helps: &'a Helps,
) -> Result<Command<'a>, AllocError>
    requires { AreThere helps.now }
    ensures { IfOk result (HasMore words.logged_rules subcommand.entry) }
{
    let numbered = with_options(alloc, subcommand, SERVER_OPTIONS, &helps.server)?;
    numbered.arg(memory(alloc))?.arg(flag(
        alloc,
        LOG,
        "Writes a line to standard error for each thing that happens",
    ))
}

// A number that has a help of its own, and no default that is told.
fn plain_option<'a>(alloc: Global, option: NumberOption, help: &'static str) -> Arg<'a>
    ensures rule { rule_of result ≡ rule_for option }
    ensures local { result.global ≡ false }
{
    Arg::new(alloc, option.name)
        .long(option.name)
        .help(help)
        .action(ArgAction::Set)
        .value_parser(ValueParser::unsigned(option.number.least, option.number.most))
}

// A subcommand with what a server alone has.
fn with_server<'a>(
    alloc: Global,
    subcommand: Command<'a>,
    helps: &'a Helps,
) -> Result<Command<'a>, AllocError>
    requires { AreThere helps.now }
    ensures { IfOk result (HasMore words.server_rules subcommand.entry) }
{
    let logged = with_log(alloc, subcommand, helps)?;
    logged.arg(plain_option(alloc, STATUS_PORT, STATUS_PORT.help))
}

// `script`, with its options and its mailboxes.
fn script_line<'a>(alloc: Global, helps: &'a Helps) -> Result<Command<'a>, AllocError>
    requires { AreThere helps.now }
    ensures shape { IfOk result (λ c. shape_of c ≡ words.script) }
    ensures local { IfOk result (λ c. (fields_of c).has_globals ≡ false) }
{
    let script = Command::new(alloc, "script").about(
        "Runs a script from standard input on a house of its own",
    );
    let housed = with_house(alloc, script, helps)?;
    with_script_options(alloc, housed)
}

// `serve`, with its options and its mailboxes.
fn serve_line<'a>(alloc: Global, helps: &'a Helps) -> Result<Command<'a>, AllocError>
    requires { AreThere helps.now }
    ensures shape { IfOk result (λ c. shape_of c ≡ words.serve) }
    ensures local { IfOk result (λ c. (fields_of c).has_globals ≡ false) }
{
    let serve = Command::new(alloc, "serve").about(
        "Serves on the loopback address until standard input is at its end",
    );
    let housed = with_house(alloc, serve, helps)?;
    with_server(alloc, housed, helps)
}

// The program, with no subcommand yet.
fn program<'a>(alloc: Global) -> Command<'a>
    ensures { app_of result ≡ record words.program
        { top = record (words.program).top { is_leaf = true }; subs = [] } }
{
    Command::new(alloc, "post_house")
        .about("Takes in mail for a few mailboxes")
        .version(VERSION)
        .subcommand_required(true)
}

// What the program takes: one of two subcommands.
pub(crate) fn command_line<'a>(alloc: Global, helps: &'a Helps) -> Result<Command<'a>, AllocError>
    requires { AreThere helps.now }
    ensures { IfOk result (λ c. app_of c ≡ words.program) }
{
    let with_script = program(alloc).subcommand(script_line(alloc, helps)?)?;
    with_script.subcommand(serve_line(alloc, helps)?)
}
