//! Laws of what a relay may conclude of a server, by the one history that all its threads share, as functions that do nothing but rest on the
//! laws of the crates below.

ghost use Rattle.laws_relay.specs.Served.{ClientSlotsConclude, LinesConclude, ServedRelaysConclude, ServersConclude, WorkersConclude};

use crate::account_laws::connections_of_accounts_are_known;
use crate::reply_laws::messages_are_known;
use running_house::connections_are_of_lines;

/// Of a mail connection of a server, at any moment between two messages: each recipient whose reply a relay has read as 250 has its copy in the one history that
/// all threads of the server share, in the mailbox that its RCPT line names, with the text that came, under one UID, once. A recipient whose reply it has read as
/// another has no copy of that message there. And nothing else stands of this connection: each copy is one of these, or one whose reply it hasn't read. In each mailbox
/// they stand in the order in which they were sent. `converse` and `books_stand` (`lane_work`) say what this asks for, of all connections of its worker together.
pub fn served_relays_conclude()
    ensures { ServedRelaysConclude }
{
    messages_are_known();
    connections_of_accounts_are_known();
    connections_are_of_lines();
}

/// So it is of each connection of a worker, where the history is legal, and has just those copies of its seat of which its conversations told Stored.
/// And whatever stands of this worker is of one of these connections.
pub fn workers_conclude()
    ensures { WorkersConclude }
{
    served_relays_conclude();
    connections_are_of_lines();
}

/// So it is of each worker of a server that stopped in order, by what `serve_house` (`serving`, clause `kept`) says of what it hands out, whatever its
/// settings are, as long as nothing is wrong with them.
pub fn servers_conclude()
    ensures { ServersConclude }
{
    workers_conclude();
}

/// Of each client slot of such a server just those messages that its clients appended stand of which Stored was told: the very messages, each once,
/// under the UID that was told, in the order in which they were appended.
pub fn client_slots_conclude()
    ensures { ClientSlotsConclude }
{}

/// So it is of the line of each worker, where it tells what came and what was said: each connection that came in there is one that was served, with
/// the bytes that its peer sends; and what it was told is the replies to these, or the first of them.
pub fn lines_conclude()
    ensures { LinesConclude }
{
    servers_conclude();
}
