//! Laws of what a relay may conclude of a house that ran, as functions that do nothing but rest on the
//! laws of the crates below.

ghost use Rattle.laws_relay.specs.AccountLaws.{AccountsConclude, AccountsKeepClosed, ConnectionsAreKnown, RisingUidsAreAlone};
ghost use Rattle.laws_relay.specs.Reports.{ReportsConclude};

use crate::reply_laws::messages_are_known;
use running_house::{connections_are_of_lines, lines_are_told, reports_tell_of_each_copy};

/// A connection of a worker's account is one of which a relay may conclude by the bytes alone: it sent the
/// connection's bytes, and perhaps more behind them, and was told any front of the replies.
pub fn connections_of_accounts_are_known()
    ensures { ConnectionsAreKnown }
{
    messages_are_known();
    lines_are_told();
}

/// Where what the mailboxes accepted agrees with the workers' logs, a relay on a connection of a worker may
/// conclude of the mailboxes themselves: a recipient whose reply is 250 has its copy in the mailbox that its RCPT
/// line names, once and nowhere else; one whose reply is another has none; and nothing else was
/// accepted of this worker. Copies stand in the order in which they were sent. Nothing was accepted
/// for a shard that the worker had closed.
pub fn accounts_conclude()
    ensures concludes { AccountsConclude }
    ensures closed { AccountsKeepClosed }
{
    messages_are_known();
    connections_of_accounts_are_known();
    connections_are_of_lines();
}

/// Of a mailbox whose accepted copies have UIDs that rise, none shares its UID with another: then a message that
/// is there has the text of the copy with its UID.
pub fn uids_are_alone()
    ensures { RisingUidsAreAlone }
{}

/// So it is of each worker and each of its connections in a report of `run_house`, by the bytes of the plan and
/// the replies of the report, whatever the plan. What else was accepted are messages that
/// clients of sessions appended.
pub fn reports_conclude()
    ensures { ReportsConclude }
{
    accounts_conclude();
    reports_tell_of_each_copy();
}
