//! What follows of a legal history. Each of these does nothing: its clause is a law.
ghost use Rattle.std.specs.Prelude.{◌≡◌, ◌≢◌, ◌<◌, ◌^◌, ℕ, List, All, AllPairs, Contains};
ghost use Rattle.std.specs.List.Sorted.{IsStrictlyIncreasing};
ghost use Rattle.change_ring.specs.Log.{added};
ghost use Rattle.delivery_token.specs.Keys.{Below};
ghost use Rattle.delivery_token.specs.declared.CopyKey.{CopyKey};
ghost use Rattle.delivery_token.specs.declared.Job.{Job};
ghost use Rattle.delivery_token.specs.declared.log.Noted.{Noted};
ghost use Rattle.delivery_token.specs.declared.Refusal.{Refusal};
ghost use Rattle.delivery_token.specs.declared.Verdict.{Verdict};
ghost use Rattle.delivery_token.specs.declared.Verdict.TheVariants.{Refused};
ghost use Rattle.world.specs.Law.{IsPart};
ghost use Rattle.house_history.specs.declared.event.Event.{Event};
ghost use Rattle.house_history.specs.Events.{accepted_in, changes_in, judged_in, keys_of_seat, sent_by, sent_to, uids_of};
ghost use Rattle.house_history.specs.Legal.{StandsAlone, HasUid, Legal, Stands, WasJudged, WasWithdrawn};
ghost use Rattle.house_history.specs.Views.{IsNotedIn, IsSettledIn};

use delivery_token::Verdict;

/// The UID that a verdict tells has 32 bits (RFC 9051, 2.3.1.1).
pub fn uid_fits(verdict: Verdict)
    ensures { HasUid verdict }
{
    let _ = verdict;
}

/// There is one verdict on a key in all mailboxes together, and one copy of it.
pub fn one_verdict()
    ensures { (history : List Event) (i j : Job) (v w : Verdict) → Legal history
        → WasJudged history i v → WasJudged history j w → i.key ≡ j.key → (i ≡ j) × (v ≡ w) }
{}

/// What was judged is the copy that its seat has sent: for this mailbox, with this text and these flags.
pub fn judged_as_sent()
    ensures { (history : List Event) (job : Job) (v : Verdict) → Legal history
        → WasJudged history job v → (t : ℕ) × Contains (sent_by job.key.seat history) (job, t) }
{}

/// A verdict that is noted of a key which a seat has sent is on the very copy that it sent.
pub fn noted_is_own()
    ensures { (history : List Event) (job : Job) (t : ℕ) (noted : Noted) → Legal history
        → Contains (sent_by job.key.seat history) (job, t) → noted.key ≡ job.key
        → IsNotedIn history noted → WasJudged history job noted.verdict }
{}

/// There is no verdict on a copy that its seat withdrew.
pub fn withdrawn_never_judged()
    ensures { (history : List Event) (i j : Job) (v : Verdict) → Legal history
        → WasWithdrawn history i → WasJudged history j v → i.key ≢ j.key }
{}

/// What is noted of a copy stays so: a verdict on it is the one that is noted.
pub fn settled_is_final()
    ensures { (history : List Event) (job : Job) (v : Verdict) (noted : Noted) → Legal history
        → IsSettledIn history noted → WasJudged history job v → job.key ≡ noted.key
        → noted.verdict ≡ v }
{}

/// A copy that was stored stands in its mailbox once, under that UID, and in no other mailbox.
pub fn stands_once()
    ensures { (history : List Event) (job : Job) (uid : ℕ) → Legal history
        → Stands history job uid → StandsAlone history job uid }
{}

/// What a mailbox accepted are the copies that were stored there, and nothing else.
pub fn accepted_was_stored()
    ensures { (history : List Event) (m uid : ℕ) (key : CopyKey)
        → Contains (accepted_in m history) (key, uid)
        → (job : Job) × (job.key ≡ key) × (job.mailbox ≡ m) × Stands history job uid }
{}

/// A UID of a mailbox is one copy's. So it has one text.
pub fn one_copy_of_a_uid()
    ensures { (history : List Event) (i j : Job) (uid : ℕ) → Legal history → Stands history i uid
        → Stands history j uid → i.mailbox ≡ j.mailbox → i ≡ j }
{}

/// A copy that was refused stands in no mailbox.
pub fn refused_stands_nowhere()
    ensures { (history : List Event) (job : Job) (why : Refusal) (m : ℕ) → Legal history
        → WasJudged history job (Refused why) → All (λ a. a.0 ≢ job.key) (accepted_in m history) }
{}

/// No key stands twice in a mailbox.
pub fn no_key_twice()
    ensures { (history : List Event) (m : ℕ) → Legal history
        → AllPairs (λ a b. a.0 ≢ b.0) (accepted_in m history) }
{}

/// The UIDs of what a mailbox accepted are those that its log adds, in the order of the history, and rise: none stands twice.
pub fn uids_rise()
    ensures { (history : List Event) (m : ℕ) → Legal history
        → IsStrictlyIncreasing (uids_of (accepted_in m history))
        × (added (changes_in m history) ≡ uids_of (accepted_in m history)) }
{}

/// Each UID that a mailbox gave has 32 bits (RFC 9051, 2.3.1.1).
pub fn uids_fit()
    ensures { (history : List Event) (m : ℕ) → Legal history
        → All (λ (uid : ℕ). uid < 2 ^ 32) (added (changes_in m history)) }
{}

/// Of each seat, the copies on which there was a verdict in a mailbox are some of those that the seat sent there, in the order in which it sent them.
pub fn judged_in_the_order_sent()
    ensures { (history : List Event) (m p : ℕ) → Legal history
        → IsPart (judged_in m p history) (sent_to m p history) }
{}

/// Of each seat, the keys of what a mailbox accepted rise.
pub fn accepted_in_order()
    ensures { (history : List Event) (m p : ℕ) → Legal history
        → AllPairs Below (keys_of_seat p (accepted_in m history)) }
{}
