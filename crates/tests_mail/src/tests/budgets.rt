//! A limit on bytes: it is reached exactly and passed by nobody, what was charged is given back, and copies of a text are charged once.

use budget::{Budget, ChargeFault};
use delivery_token::Text;
use std::alloc::{AllocError, Global};
use std::sync::atomic::{AtomicU64, Ordering};
use std::thread;

// What a charge is answered.
#[derive(Clone, Copy, Debug, PartialEq, Eq)]
enum Answer {
    Charged,
    // So many bytes were held already.
    Over(u64),
    NoMemory,
}

use Answer::{Charged, NoMemory, Over};

// What a charge of so many bytes is answered. It is let go again.
fn answer_to(budget: &Budget, bytes: u64) -> Answer {
    match budget.charge(bytes) {
        Ok(_) => Charged,
        Err(ChargeFault::Over(excess)) => Over(excess.held()),
        Err(ChargeFault::NoMemory) => NoMemory,
    }
}

// The same beside another charge, and then once that is let go.
fn answers_beside(budget: &Budget, other: u64, bytes: u64) -> (Answer, Answer) {
    let held = budget.charge(other);
    let beside = answer_to(budget, bytes);
    drop(held);
    (beside, answer_to(budget, bytes))
}

struct Case {
    limit: Option<u64>,
    held: u64,
    more: u64,
    beside: Answer,
    alone: Answer,
}

const CASES: &[Case] = &[
    Case {
        limit: Some(10),
        held: 4,
        more: 5,
        beside: Charged,
        alone: Charged,
    },
    Case {
        limit: Some(10),
        held: 4,
        more: 6,
        beside: Charged,
        alone: Charged,
    },
    Case {
        limit: Some(10),
        held: 4,
        more: 7,
        beside: Over(4),
        alone: Charged,
    },
    Case {
        limit: Some(10),
        held: 4,
        more: 11,
        beside: Over(4),
        alone: Over(0),
    },
    Case {
        limit: Some(10),
        held: 10,
        more: 0,
        beside: Charged,
        alone: Charged,
    },
    Case {
        limit: Some(10),
        held: 10,
        more: 1,
        beside: Over(10),
        alone: Charged,
    },
    // What is refused isn't held.
    Case {
        limit: Some(10),
        held: 11,
        more: 10,
        beside: Charged,
        alone: Charged,
    },
    Case {
        limit: Some(0),
        held: 0,
        more: 0,
        beside: Charged,
        alone: Charged,
    },
    Case {
        limit: Some(0),
        held: 0,
        more: 1,
        beside: Over(0),
        alone: Over(0),
    },
    // The sum would not fit in a word.
    Case {
        limit: Some(u64::MAX),
        held: u64::MAX,
        more: 1,
        beside: Over(u64::MAX),
        alone: Charged,
    },
    Case {
        limit: None,
        held: u64::MAX,
        more: u64::MAX,
        beside: Charged,
        alone: Charged,
    },
];

fn budget_of(alloc: Global, limit: Option<u64>) -> Result<Budget, AllocError> {
    match limit {
        Some(limit) => Budget::new(alloc, limit),
        None => Ok(Budget::unlimited()),
    }
}

fn is_answered(alloc: Global, case: &Case) -> Result<bool, AllocError> {
    let budget = budget_of(alloc, case.limit)?;
    let answers = answers_beside(&budget, case.held, case.more);
    Ok(answers == (case.beside, case.alone))
}

#[test]
fn a_limit_is_reached_and_not_passed(rt: HostRuntime) -> Result<(), AllocError> {
    for (index, case) in CASES.iter().enumerate() {
        assert!(rt; is_answered(rt.alloc(), case)?, "case {index}");
    }
    Ok(())
}

// What others who have the same budget are answered while one of them holds so many bytes, and then.
fn answers_of_others(
    budget: &Budget,
    held: u64,
    more: u64,
) -> Result<(Answer, Answer), AllocError> {
    let other = budget.again()?;
    let charge = budget.charge(held);
    let beside = answer_to(&other, more);
    drop(charge);
    Ok((beside, answer_to(&other, more)))
}

#[test]
fn a_limit_is_shared(rt: HostRuntime) -> Result<(), AllocError> {
    let budget = Budget::new(rt.alloc(), 10)?;
    let answers = answers_of_others(&budget, 7, 4)?;
    assert!(rt; answers == (Over(7), Charged));
    Ok(())
}

// What a charge of 3 bytes is answered beside a text of 4 and its copy, beside the copy alone, and beside neither.
fn answers_beside_copies(
    alloc: Global,
    budget: &Budget,
) -> Result<(Answer, Answer, Answer), AllocError> {
    let text = Text::charged(budget, Vec::from_slice(alloc, b"hi\r\n")?, None)?;
    let copy = text.copy()?;
    let both = answer_to(budget, 3);
    drop(text);
    let one = answer_to(budget, 3);
    drop(copy);
    Ok((both, one, answer_to(budget, 3)))
}

#[test]
fn copies_of_a_text_are_charged_once(rt: HostRuntime) -> Result<(), AllocError> {
    let budget = Budget::new(rt.alloc(), 6)?;
    let answers = answers_beside_copies(rt.alloc(), &budget)?;
    assert!(rt; answers == (Over(4), Over(4), Charged));
    Ok(())
}

const LIMIT: u64 = 100;

const TURNS: usize = 2_000;

// What the threads hold, as they count it themselves, and the most that it ever was.
#[derive(Drop)]
struct Tally {
    held: AtomicU64,
    most: AtomicU64,
}

impl Tally {
    fn note(&self, bytes: u64) {
        let before = self.held.fetch_add(bytes, Ordering::SeqCst);
        let now = before.saturating_add(bytes);
        self.most.fetch_max(now, Ordering::SeqCst);
        self.held.fetch_sub(bytes, Ordering::SeqCst);
    }
}

// Charges so many bytes in each turn, and lets them go. How often they were charged.
fn take_turns(budget: &Budget, tally: &Tally, bytes: u64) -> usize {
    let mut charged = 0usize;
    for _ in 0..TURNS {
        let charge = budget.charge(bytes);
        if charge.is_ok() {
            tally.note(bytes);
            charged = charged.saturating_add(1);
        }
    }
    charged
}

#[test]
fn threads_never_hold_more_than_the_limit(rt: HostRuntime) -> Result<(), AllocError> {
    let budget = Budget::new(rt.alloc(), LIMIT)?;
    let tally = Tally {
        held: AtomicU64::new(0),
        most: AtomicU64::new(0),
    };
    let sizes = Vec::from_slice(rt.alloc(), &[20, 30, 40, 50, 60, 100])?;
    let turns = thread::map_vec(&rt, sizes, &|bytes| take_turns(&budget, &tally, bytes))?;
    assert!(&rt; turns.iter().any(|charged| *charged > 0));
    assert!(&rt; tally.most.load(Ordering::SeqCst) <= LIMIT);
    assert!(&rt; answer_to(&budget, LIMIT) == Charged);
    Ok(())
}
