//! Whether the refusals that the producers noted can have come: what the mailboxes accepted, and what was taken from the lanes, allows
//! them. Compared beside the lists, after all threads were joined.

ghost use Rattle.std.specs.Prelude.{◌≡◌, ◌≢◌, ◌<◌, ◌≤◌, ◌+◌, ◌⊎◌, ◌↔◌, ◌++◌, ◌∷◌, [], All, IsTrue, List, drop, length, map, slice_index_or, take, true};
ghost use Rattle.delivery_token.specs.Keys.{Precedes};
ghost use Rattle.envelope.specs.Names.{shard_of};
ghost use Rattle.running_house.specs.Refusals.{AreTogether, CameBehind, HadNoRoom, IsCopyFor, IsNotLater, MayCome, MayWait, MayWaitTogether, StandAmong};
ghost use Rattle.running_house.specs.inner.Refusals.{HasKey};
ghost use Rattle.shard_queue.specs.Lane.{producer};

use delivery_token::{CopyKey, Job, Noted, Refusal, Verdict, WorkerLog, precedes};
use envelope::Directory;
use settings::Config;
use shard_queue::Entry;

/// What the refusals of a run are compared with.
#[derive(Clone, Copy)]
pub(crate) struct Evidence<'a> {
    /// The settings of its house.
    pub(crate) config: &'a Config,
    /// Its mailboxes.
    pub(crate) directory: &'a Directory,
    /// For each mailbox, the copies that it accepted.
    pub(crate) accepted: &'a [Vec<(CopyKey, u32)>],
    /// For each shard, the entries that were taken from its lane.
    pub(crate) taken: &'a [Vec<Entry<Job>>],
}

// Whether whoever put the copy with this key didn't put the entry later.
fn is_not_later(entry: &Entry<Job>, key: &CopyKey) -> bool
    ensures { IsTrue result ↔ IsNotLater key.now entry.now }
{
    match entry {
        Entry::Item(producer, job) => *producer != key.seat || precedes(&job.key, key),
        Entry::End(producer) => *producer != key.seat,
    }
}

// Whether so many entries leave no room for one more on a lane of this depth.
fn leaves_no_room(depth: usize, ahead: usize) -> bool
    ensures { IsTrue result → depth ≤ ahead }
{
    depth <= ahead
}

// Whether this is the key of an earlier copy of the same message.
fn is_earlier_of_message(copy: &CopyKey, key: &CopyKey) -> bool
    ensures { IsTrue result → Precedes copy.now key.now × (copy.now.serial ≡ key.now.serial)
        × (copy.now.message ≡ key.now.message) }
{
    copy.serial == key.serial && copy.message == key.message && precedes(copy, key)
}

// Whether the entry may have waited as the copy with this key was refused.
fn may_wait(entry: &Entry<Job>, key: &CopyKey) -> bool
    ensures { IsTrue result → MayWait key.now entry.now }
{
    match entry {
        Entry::Item(seat, job) => *seat != key.seat || is_earlier_of_message(&job.key, key),
        Entry::End(seat) => *seat != key.seat,
    }
}

// Whether another producer put the entry.
fn is_anothers(entry: &Entry<Job>, key: &CopyKey) -> bool
    ensures { IsTrue result → producer entry.now ≢ key.now.seat }
{
    match entry {
        Entry::Item(seat, _) => *seat != key.seat,
        Entry::End(seat) => *seat != key.seat,
    }
}

// Whether the keys are of one message, where they are of one seat.
fn are_of_one_message(one: &CopyKey, other: &CopyKey) -> bool
    ensures { IsTrue result → (one.now.serial ≡ other.now.serial)
        × (one.now.message ≡ other.now.message) }
{
    one.serial == other.serial && one.message == other.message
}

// Whether the second may have been put while the first waited.
fn may_wait_together(first: &Entry<Job>, second: &Entry<Job>) -> bool
    ensures { IsTrue result → MayWaitTogether first.now second.now }
{
    match (first, second) {
        (Entry::Item(p, one), Entry::Item(q, other)) => {
            *p != *q || are_of_one_message(&one.key, &other.key)
        }
        (Entry::Item(p, _), Entry::End(q)) => *p != *q,
        (Entry::End(p), Entry::Item(q, _)) => *p != *q,
        (Entry::End(p), Entry::End(q)) => *p != *q,
    }
}

// Where those begin, of the entries before this one and not before `begun`, beside which it may have been put.
fn begun_beside(taken: &[Entry<Job>], begun: usize, index: usize) -> usize
    requires within { begun ≤ index × (index < length taken.now) }
    ensures within { begun ≤ result × (result ≤ index) }
    ensures beside { (last : Entry Job) → last ≡ slice_index_or taken.now index last
        → All (λ entry. MayWaitTogether entry last) (drop result (take index taken.now)) }
{
    let mut from = begun;
    for earlier in begun..index {
        if !may_wait_together(&taken[earlier], &taken[index]) {
            from = earlier + 1;
        }
    }
    from
}

// Where those begin that may have waited together as the copy with this key was refused, with the
// entry that stands here; before it they began at `begun`.
fn begun_with(taken: &[Entry<Job>], key: &CopyKey, begun: usize, index: usize) -> usize
    requires within { (begun ≤ index) × (index < length taken.now) }
    requires own { All (MayWait key.now) (drop begun (take index taken.now)) }
    requires together { AreTogether (drop begun (take index taken.now)) }
    ensures within { result ≤ index + 1 }
    ensures own { All (MayWait key.now) (drop result (take (index + 1) taken.now)) }
    ensures together { AreTogether (drop result (take (index + 1) taken.now)) }
{
    if may_wait(&taken[index], key) {
        begun_beside(taken, begun, index)
    } else {
        index + 1
    }
}

// Whether so many may have waited, up to and with this entry: so many wait now, or it was so before and
// another producer put this one.
fn is_filled(filled: bool, entry: &Entry<Job>, key: &CopyKey, depth: usize, ahead: usize) -> bool
    ensures { IsTrue result → (depth ≤ ahead)
        ⊎ ((filled ≡ true) × (producer entry.now ≢ key.now.seat)) }
{
    leaves_no_room(depth, ahead) || (filled && is_anothers(entry, key))
}

// Whether a lane of this depth, from which these entries were taken, can have had no room for the copy with this key.
fn had_no_room(depth: usize, key: &CopyKey, taken: &[Entry<Job>]) -> bool
    ensures { IsTrue result → HadNoRoom depth key.now taken.now }
{
    let mut begun = 0usize;
    let mut filled = false;
    for index in 0..taken.len() {
        if !is_not_later(&taken[index], key) {
            return filled;
        }
        begun = begun_with(taken, key, begun, index);
        filled = is_filled(filled, &taken[index], key, depth, index + 1 - begun);
    }
    filled
}

// Whether the entry is the copy with this key.
fn has_key(entry: &Entry<Job>, key: &CopyKey) -> bool
    ensures { IsTrue result → HasKey key.now entry.now }
{
    match entry {
        Entry::Item(_, job) => job.key == *key,
        Entry::End(_) => false,
    }
}

// Whether the entry is the copy that this mailbox accepted.
fn is_accepted(mailbox: u8, accepted: &(CopyKey, u32), entry: &Entry<Job>) -> bool
    ensures { IsTrue result → IsCopyFor mailbox accepted.now.0 entry.now }
{
    match entry {
        Entry::Item(_, job) => job.key == accepted.0 && job.mailbox == mailbox,
        Entry::End(_) => false,
    }
}

// How many of the copies that were accepted are found up to this entry, where so many were found before it.
fn found_with(mailbox: u8, accepted: &[(CopyKey, u32)], found: usize, entry: &Entry<Job>) -> usize
    requires within { found ≤ length accepted.now }
    ensures within { result ≤ length accepted.now }
    ensures found { (before : List (Entry Job))
        → StandAmong mailbox (take found accepted.now) before
        → StandAmong mailbox (take result accepted.now) (before ++ entry.now ∷ []) }
{
    if found == accepted.len() {
        return found;
    }
    if !is_accepted(mailbox, &accepted[found], entry) {
        return found;
    }
    found + 1
}

// How many of the copies that a mailbox accepted, from the first on, are among these entries, in their order.
fn accepted_among(mailbox: u8, accepted: &[(CopyKey, u32)], taken: &[Entry<Job>]) -> usize
    ensures within { result ≤ length accepted.now }
    ensures stand { StandAmong mailbox (take result accepted.now) taken.now }
{
    let mut found = 0usize;
    for index in 0..taken.len() {
        found = found_with(mailbox, accepted, found, &taken[index]);
    }
    found
}

// Whether the copy with this key was taken, behind so many that the mailbox had accepted or more.
fn came_behind(
    count: usize,
    mailbox: u8,
    key: &CopyKey,
    accepted: &[(CopyKey, u32)],
    taken: &[Entry<Job>],
) -> bool
    ensures { IsTrue result → CameBehind count mailbox key.now accepted.now taken.now }
{
    for index in 0..taken.len() {
        if has_key(&taken[index], key) {
            return count <= accepted_among(mailbox, accepted, &taken[..index]);
        }
    }
    false
}

// What was taken from the lane of this mailbox's shard.
fn taken_for<'a>(evidence: &Evidence<'a>, mailbox: u8) -> &'a [Entry<Job>]
    ensures { result.now ≡ slice_index_or (map (λ own.
        own.items) evidence.now.taken.now) (shard_of evidence.now.directory.now mailbox) [] }
{
    match evidence.taken.get(evidence.directory.shard_of(mailbox)) {
        Some(taken) => taken.as_slice(),
        None => &[],
    }
}

// Those that this mailbox accepted.
fn accepted_by<'a>(evidence: &Evidence<'a>, mailbox: u8) -> &'a [(CopyKey, u32)]
    ensures { result.now ≡ slice_index_or (map (λ own.
        own.items) evidence.now.accepted.now) mailbox [] }
{
    match evidence.accepted.get(usize::from(mailbox)) {
        Some(own) => own.as_slice(),
        None => &[],
    }
}

// Whether a mailbox can have accepted so many copies when the one with this key was judged.
fn may_have_had(evidence: &Evidence<'_>, count: usize, noted: &Noted) -> bool
    ensures { IsTrue result → CameBehind count noted.now.mailbox noted.now.key
        (slice_index_or (map (λ own. own.items) evidence.now.accepted.now) noted.now.mailbox [])
        (slice_index_or (map (λ own.
        own.items) evidence.now.taken.now) (shard_of evidence.now.directory.now noted.now.mailbox)
        []) }
{
    let mailbox = noted.mailbox;
    came_behind(
        count,
        mailbox,
        &noted.key,
        accepted_by(evidence, mailbox),
        taken_for(evidence, mailbox),
    )
}

// Whether this verdict can have come.
fn may_come(evidence: &Evidence<'_>, noted: &Noted) -> bool
    ensures { IsTrue result → MayCome evidence.now.config.now evidence.now.directory.now
        (map (λ own. own.items) evidence.now.accepted.now) (map (λ own.
        own.items) evidence.now.taken.now) noted.now }
{
    let config = evidence.config;
    match noted.verdict {
        Verdict::Stored { uid: _ } => true,
        Verdict::Refused(Refusal::Full) => {
            had_no_room(config.depth, &noted.key, taken_for(evidence, noted.mailbox))
        }
        Verdict::Refused(Refusal::MailboxFull) => may_have_had(evidence, config.messages, noted),
        Verdict::Refused(Refusal::NoMemory) => true,
        Verdict::Refused(Refusal::UidSpent) => {
            may_have_had(evidence, (u32::MAX - config.first_uid) as usize, noted)
        }
        Verdict::Refused(Refusal::Shut) => true,
    }
}

// Whether each verdict of one log can have come.
fn each_may_come(evidence: &Evidence<'_>, log: &WorkerLog) -> bool
    ensures { IsTrue result → All (MayCome evidence.now.config.now evidence.now.directory.now
        (map (λ own. own.items) evidence.now.accepted.now) (map (λ own.
        own.items) evidence.now.taken.now)) log.now.notes }
{
    log.notes().iter().all(|noted| may_come(evidence, noted))
}

/// Whether each verdict that the producers noted can have come: one log is of one producer.
pub(crate) fn all_may_come(evidence: &Evidence<'_>, logs: &[WorkerLog]) -> bool
    ensures { IsTrue result → All (λ log.
        All (MayCome evidence.now.config.now evidence.now.directory.now
        (map (λ own. own.items) evidence.now.accepted.now) (map (λ own.
        own.items) evidence.now.taken.now)) log.notes) logs.now }
{
    logs.iter().all(|log| each_may_come(evidence, log))
}
