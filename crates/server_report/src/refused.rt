//! The reasons for which a copy is refused: their words, and how often each came. Which reason it is is the mailbox's and the lane's matter.

ghost use Rattle.std.specs.Prelude.{◌≡◌};
ghost use Rattle.server_report.specs.Reasons.{count_for, reason_words, reasons};

use crate::counts::Refused;
use delivery_token::Refusal;

/// Each reason, in the order in which they are told.
pub(crate) const REASONS: [Refusal; 5] = [
    Refusal::MailboxFull,
    Refusal::Full,
    Refusal::Shut,
    Refusal::UidSpent,
    Refusal::NoMemory,
];

/// The words for a reason.
pub(crate) fn reason_words(reason: Refusal) -> &'static [u8]
    ensures { result.now ≡ reason_words reason }
{
    match reason {
        Refusal::MailboxFull => b"mailbox full",
        Refusal::Full => b"shard full",
        Refusal::Shut => b"shard closed",
        Refusal::UidSpent => b"UIDs spent",
        Refusal::NoMemory => b"no memory",
    }
}

/// How many copies were refused for it.
pub(crate) fn count_for(refused: Refused, reason: Refusal) -> u64
    ensures { result ≡ count_for refused reason }
{
    match reason {
        Refusal::MailboxFull => refused.mailbox_full,
        Refusal::Full => refused.shard_full,
        Refusal::Shut => refused.shard_closed,
        Refusal::UidSpent => refused.uids_spent,
        Refusal::NoMemory => refused.no_memory,
    }
}
