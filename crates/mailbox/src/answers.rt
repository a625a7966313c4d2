//! What a mailbox's answers are told as: a delivery's to who sent the copy, a feed's among all calls of
//! a client. What the calls do is told where they stand.

ghost use Rattle.std.specs.Prelude.{◌≡◌};
ghost use Rattle.mailbox.specs.Answers.{answer_of, verdict_of};

use crate::clients::MailFault;
use crate::mailbox::Receipt;
use cursor_set::FeedFault;
use delivery_token::{Refusal, Verdict};

/// A delivery's answer, as its producer is told. It spends the receipt, as nothing else does.
pub fn verdict_of(delivered: Result<Receipt, Refusal>) -> Verdict
    // Stored under the receipt's UID, or refused for that reason.
    ensures { result ≡ verdict_of delivered }
{
    match delivered {
        Ok(receipt) => Verdict::Stored {
            uid: receipt.into_uid(),
        },
        Err(why) => Verdict::Refused(why),
    }
}

/// A feed's answer, with its fault as one of all calls.
pub fn answer_of(fed: Result<usize, FeedFault>) -> Result<usize, MailFault>
    // The same count, or the fault of the same name.
    ensures { result ≡ answer_of fed }
{
    match fed {
        Ok(count) => Ok(count),
        Err(FeedFault::Stranger) => Err(MailFault::Stranger),
        Err(FeedFault::Lapped) => Err(MailFault::Lapped),
        Err(FeedFault::NoMemory) => Err(MailFault::NoMemory),
    }
}
