//! What a line says: commands, paths and faults, as plain values that borrow from the line.
//! Nothing here reads bytes, and nothing knows which mailboxes there are.

/// An address (RFC 5321, section 4.1.2), as slices of the line that it stands in.
#[derive(Clone, Copy, Debug, PartialEq, Eq)]
pub struct Mailbox<'a> {
    /// The local part as it is spelled: a quoted string has its quotes and backslashes.
    pub local: &'a [u8],
    /// The domain, or an address literal with its brackets.
    pub domain: &'a [u8],
}

/// Where a message came from (RFC 5321, section 4.1.1.2).
#[derive(Clone, Copy, Debug, PartialEq, Eq)]
pub enum ReversePath<'a> {
    /// `<>`, of a message that is a notification.
    Null,
    /// The mailbox of the sender; a route before it is dropped.
    Sender(Mailbox<'a>),
}

/// Where a message goes (RFC 5321, section 4.1.1.3).
#[derive(Clone, Copy, Debug, PartialEq, Eq)]
pub enum ForwardPath<'a> {
    /// `<postmaster>` with no domain, in upper or lower case.
    Postmaster,
    /// The mailbox of the recipient; a route before it is dropped.
    Recipient(Mailbox<'a>),
}

/// A command (RFC 2033, section 4; RFC 5321, section 4.1.1). What a server of this profile doesn't
/// act on, as a route, a client's name or a BODY parameter, is read and dropped.
#[derive(Clone, Copy, Debug, PartialEq, Eq)]
pub enum LmtpCommand<'a> {
    Lhlo,
    Mail(ReversePath<'a>),
    Rcpt(ForwardPath<'a>),
    Data,
    Rset,
    Quit,
    Noop,
    Vrfy,
    Expn,
    Help,
}

/// Why a line is no command. The first that holds is the fault.
#[derive(Clone, Copy, Debug, PartialEq, Eq)]
pub enum CommandFault {
    /// The first word is no verb.
    Unknown,
    /// The line hasn't the form of its verb; `lhlo` tells whether that is LHLO.
    Syntax { lhlo: bool },
    /// A path is longer than 256 bytes, a local part than 64 or a domain than 255 (RFC 5321, section 4.5.3.1).
    PathTooLong,
    /// A parameter isn't known: MAIL takes BODY=7BIT and BODY=8BITMIME, RCPT takes none.
    Parameter,
}

/// The first word of a command.
#[derive(Clone, Copy, Debug, PartialEq, Eq)]
pub enum Verb {
    Lhlo,
    Mail,
    Rcpt,
    Data,
    Rset,
    Quit,
    Noop,
    Vrfy,
    Expn,
    Help,
}
