//! What the threads left is closed, compared and put together. Nothing runs any more.

ghost use Rattle.std.specs.Global.{Global};
ghost use Rattle.std.specs.Prelude.{◌≡◌, ◌==◌, ◌⊎◌, ◌≤◌, ◌+◌, ◌∷◌, ℕ, [], All, IfErr, IfOk, OnOk, Vec, drop, length, map, take, vec_len};
ghost use Rattle.running_house.specs.Lists.{ListsAgree};
ghost use Rattle.running_house.specs.Walk.{ListsMet};
ghost use Rattle.house_shared.specs.Crew.{AllAt};
ghost use Rattle.house_shared.specs.Opening.{AreBaskets};
ghost use Rattle.house_shared.specs.Left.{IsServiceOf};
ghost use Rattle.running_house.specs.Produced.{IsProduceOf};
ghost use Rattle.running_house.specs.inner.Produced.{LeavesAll};
ghost use Rattle.lane_work.specs.Consuming.{items_of};
ghost use Rattle.running_house.specs.Agree.{Agrees, accepted_of, notes_of, texts_of};
ghost use Rattle.reckoning.specs.Shelves.{AreNumbered, AreToldOnce, HasAccepted, IsTaught};
ghost use Rattle.running_house.specs.inner.Agree.{AreTexts, IsHouseSharedFor, IsNumbered};
ghost use Rattle.running_house.specs.Plan.{of_reckoning, producers_in};
ghost use Rattle.running_house.specs.Refusals.{MayCome};

use crate::agree::lists_agree;
use crate::begun::begin_at;
use crate::copies::all_copies;
use crate::plan::{Plan, Report, WorkFault};
use crate::refusals::{Evidence, all_may_come};
use envelope::Directory;
use house_history::{Front, Naming};
use house_shared::{Baskets, HouseShared, Ran};
use locked_mailbox::LockedMailbox;
use reckoning::{
    Books, Fault, Remains, Shelves, balance, learn_all, remains_of, take_out, unlock_all,
};
use settings::Config;
use std::alloc::{AllocError, Global};

// What a session said, where it said one text.
fn text_of(mut said: Vec<Vec<u8>>) -> Vec<u8>
    ensures { (text : Vec ℕ Global) → said.items ≡ text ∷ [] → result ≡ text }
{
    let alloc = *said.allocator();
    match said.pop() {
        Some(text) => text,
        None => Vec::new(alloc),
    }
}

// Parts what the sessions said, who stand behind so many workers, from what the workers did, which stays in `replies`. The only error is
// that memory is refused.
fn part_sessions(
    alloc: Global,
    replies: &mut Vec<Vec<Vec<u8>>>,
    workers: usize,
) -> Result<Vec<Vec<u8>>, AllocError>
    requires { workers ≤ vec_len replies.old }
    ensures workers { OnOk result (replies.new.items ≡ take workers replies.old.items) }
    ensures count { IfOk result (λ sessions. workers + vec_len sessions ≡ vec_len replies.old) }
    ensures sessions { IfOk result (λ sessions.
        AreTexts (drop workers replies.old.items) sessions.items) }
{
    let mut sessions = Vec::with_capacity(alloc, replies.len() - workers)?;
    for _session in workers..replies.len() {
        sessions.push_reserved(text_of(replies.remove(workers)));
    }
    Ok(sessions)
}

// What a report has besides what is compared.
struct Besides<B: Naming> {
    // What each session said.
    sessions: Vec<Vec<u8>>,
    // How the history begins.
    history: Front<B>,
}

// Compares what the threads said with what the mailboxes hold, and puts the report together.
fn compare<B: Naming>(
    alloc: Global,
    directory: &Directory,
    whole: bool,
    config: &Config,
    books: Books<B>,
    shelves: Shelves,
    besides: Besides<B>,
) -> Result<Report<B>, WorkFault>
    requires shards { directory.now.shards ≤ vec_len books.taken }
    requires numbered { All (λ v. AreNumbered v.items) shelves.accepted.items }
    requires once { All (λ v. AreToldOnce v.items) shelves.texts.items }
    ensures lists { IfOk result (λ r.
        ListsAgree directory.now whole (notes_of r) (map (λ t.
        items_of t.items) books.taken.items) (accepted_of r)
        (texts_of r)) }
    ensures met { IfOk result (λ r.
        ListsMet directory.now whole (notes_of r) (map (λ t.
        items_of t.items) books.taken.items) (accepted_of r)
        (texts_of r)) }
    ensures numbered { IfOk result (IsNumbered config.now.first_uid) }
    ensures refusals { IfOk result (λ r.
        All (λ log. All (MayCome config.now directory.now (accepted_of r)
        (map (λ t. t.items) books.taken.items)) log.notes) r.logs.items) }
    ensures same { IfOk result (λ r. (r.replies ≡ books.replies) × (r.logs ≡ books.logs)
        × (r.sessions ≡ besides.sessions) × (r.closed.lanes ≡ books.closed.lanes)
        × (r.closed.channels ≡ books.closed.channels) × (r.history ≡ besides.history)
        × (r.accepted ≡ shelves.accepted)) }
    ensures fault { IfErr result (λ fault. (fault ≡ WorkFault.NoMemory)
        ⊎ (fault ≡ WorkFault.Torn)) }
{
    let Books {
        replies,
        logs,
        taken,
        closed,
    } = books;
    let Shelves { accepted, texts } = shelves;
    let Besides { sessions, history } = besides;
    let evidence = Evidence {
        config,
        directory,
        accepted: accepted.as_slice(),
        taken: taken.as_slice(),
    };
    if !all_may_come(&evidence, logs.as_slice()) {
        return Err(WorkFault::Torn);
    }
    let copies = all_copies(alloc, taken)?;
    let agree = lists_agree(
        alloc,
        directory,
        whole,
        logs.as_slice(),
        copies.as_slice(),
        accepted.as_slice(),
        texts.as_slice(),
    )?;
    if !agree {
        return Err(WorkFault::Torn);
    }
    if !begin_at(accepted.as_slice(), config.first_uid) {
        return Err(WorkFault::Torn);
    }
    Ok(Report {
        replies,
        logs,
        accepted,
        texts,
        sessions,
        closed,
        history,
    })
}

// The report of what the books say and the mailboxes hold.
fn report_on<B: Naming>(
    alloc: Global,
    plan: &Plan,
    directory: &Directory,
    unlocked: Vec<LockedMailbox<B>>,
    mut books: Books<B>,
    history: Front<B>,
) -> Result<Report<B>, WorkFault>
    requires taught { All (IsTaught history) unlocked.items }
    requires shards { directory.now.shards ≤ vec_len books.taken }
    requires workers { length plan.now.workers.items ≤ vec_len books.replies }
    ensures lists { IfOk result (λ r.
        ListsAgree directory.now (length plan.now.sessions.items == 0) (notes_of r)
        (map (λ t. items_of t.items) books.taken.items) (accepted_of r) (texts_of r)) }
    ensures met { IfOk result (λ r.
        ListsMet directory.now (length plan.now.sessions.items == 0) (notes_of r)
        (map (λ t. items_of t.items) books.taken.items) (accepted_of r) (texts_of r)) }
    ensures accepted { IfOk result (λ r. AllAt (HasAccepted history) 0 r.accepted.items) }
    ensures numbered { IfOk result (IsNumbered plan.now.config.first_uid) }
    ensures refusals { IfOk result (λ r.
        All (λ log. All (MayCome plan.now.config directory.now (accepted_of r)
        (map (λ t. t.items) books.taken.items)) log.notes) r.logs.items) }
    ensures parts { IfOk result (λ r.
        (r.replies.items ≡ take (length plan.now.workers.items) books.replies.items)
        × (r.logs ≡ books.logs) ×
        (r.closed.lanes ≡ books.closed.lanes) × (r.closed.channels ≡ books.closed.channels)
        × AreTexts (drop (length plan.now.workers.items) books.replies.items) r.sessions.items ×
        (length plan.now.workers.items + vec_len r.sessions ≡ vec_len books.replies)
        × (r.history ≡ history)) }
    ensures fault { IfErr result (λ fault. (known : Fault) × (fault ≡ of_reckoning known)) }
{
    let sessions = part_sessions(alloc, &mut books.replies, plan.workers.len())?;
    let shelves = take_out(alloc, unlocked, &history)?;
    compare(
        alloc,
        directory,
        plan.sessions.is_empty(),
        &plan.config,
        books,
        shelves,
        Besides { sessions, history },
    )
}

/// The report of a run whose threads have all been there.
///
/// Errors: `NoMemory` where an actor wanted memory, or where it is refused here; `Torn`
/// where what they left doesn't agree.
pub(crate) fn report_of<B: Naming>(
    alloc: Global,
    plan: &Plan,
    shared: HouseShared<B>,
    ran: Ran<B>,
    baskets: Baskets<B>,
) -> Result<Report<B>, WorkFault>
    requires shared { IsHouseSharedFor plan.now shared }
    requires consumed { AllAt (IsServiceOf shared) 0 ran.consumed.items }
    requires worked { AllAt (IsProduceOf shared plan.now.workers.items plan.now.sessions.items) 0
        ran.worked.items }
    requires all { LeavesAll shared plan.now.workers.items plan.now.sessions.items ran }
    requires baskets { AreBaskets (producers_in plan.now) plan.now.config.shards baskets }
    ensures agrees { IfOk result (Agrees plan.now) }
    ensures fault { IfErr result (λ fault. (known : Fault) × (fault ≡ of_reckoning known)) }
{
    let mut history = shared.delivery.front.again();
    let Remains {
        directory,
        lanes,
        channels,
        mailboxes,
    } = remains_of(shared);
    let Ran {
        mut worked,
        consumed,
        stands,
        posts,
        started: _,
    } = ran;
    stands.destroy_empty();
    posts.destroy_empty();
    let unlocked = unlock_all(alloc, mailboxes, &mut history);
    learn_all(&mut worked, &mut history);
    let books = balance(alloc, lanes, channels, worked, consumed, baskets)?;
    report_on(alloc, plan, &directory, unlocked?, books, history)
}
