use crate::check::{Check, Failure};
use crate::dice::Dice;
use crate::library::carry_out;
use crate::orders::{next_order, task_of};
use crate::plan::Plan;
use crate::questions::{Bits, same_state};
use crate::rings::{same_lists, same_rooms, take_notices, take_words};
use crate::tally::Tally;
use crate::translated::{outcome, same_refusal};
use crate::twin::Twin;
use driver::Setup;
use plain::{Order, Outcome, Refusal};
use queue::WaitQueue;
use ring::Blank;
use std::alloc::{AllocError, Global};
use types::Entry;
use word::LockWord;

// What an order came to; a making has no outcome.
type Answered = Result<Option<Outcome>, Refusal>;

fn numbers(outcome: Outcome) -> (u32, u32) {
    let (number, value) = outcome.numbers();
    (u32::from(number), u32::from(value))
}

// Carries an order out on both, and asks both every question.
fn compare_order<W: LockWord + Bits + Drop, Q: WaitQueue + Drop>(
    check: Check,
    library: &mut Setup<W, Q>,
    twin: &mut Twin,
    order: Order,
) -> Result<Answered, Failure> {
    let plain = twin.carry_out(order).map(|done| done.outcome);
    let answer = carry_out(library, order);
    same_refusal(check, answer.err(), plain.err())?;
    let (answered, done) = (answer.ok().flatten(), plain.ok().flatten());
    check.same("outcome", answered.map(outcome), done)?;
    check.same(
        "number and value of the outcome",
        answered.map(|outcome| (outcome.number(), outcome.value())),
        done.map(numbers),
    )?;
    same_rooms(check, library, twin)?;
    same_state(check, &library.lock, &twin.lock)?;
    Ok(plain)
}

fn count_answer(tally: &mut Tally, answer: Answered) -> Result<(), AllocError> {
    tally.calls = tally.calls.saturating_add(1);
    match answer {
        Ok(None) => Ok(()),
        Ok(Some(outcome)) => {
            let (number, _) = outcome.numbers();
            tally.outcome(number)
        }
        Err(refusal) => tally.refusal(refusal.number()),
    }
}

// A list of calls on both locks, with every question after each call, up to the first difference.
fn compare_calls<W: LockWord + Bits + Drop, Q: WaitQueue + Drop>(
    heap: Global,
    tally: &mut Tally,
    plan: &Plan,
    library: &mut Setup<W, Q>,
    twin: &mut Twin,
) -> Result<(), Failure> {
    let mut dice = Dice::seeded(plan.seed);
    let mut last = 0;
    for number in 0..plan.calls {
        let check = Check::at_step(heap, number);
        if dice.one_in(plan.idle) {
            take_words(check, &mut dice, library, twin)?;
            take_notices(check, &mut dice, library, twin)?;
        }
        let order = next_order(&mut dice, plan, &twin.lock, last);
        last = task_of(order);
        let answer = compare_order(check, library, twin, order)?;
        count_answer(tally, answer)?;
    }
    Ok(())
}

const MOST: usize = 128;

// One list of calls on a blank lock of these kinds and on a plain one.
pub(crate) fn compare_list<W: LockWord + Bits + Drop, Q: WaitQueue + Drop>(
    heap: Global,
    tally: &mut Tally,
    plan: &Plan,
) -> Result<(), Failure> {
    let mut notice_list = [Entry::blank(); MOST];
    let mut word_list = [0; MOST];
    let mut twin = Twin::blank(W::GROUPS, W::LIMIT, plan);
    let (notice_part, _) = notice_list.split_at_mut(plan.notice_places.min(MOST));
    let (word_part, _) = word_list.split_at_mut(plan.archive_places.min(MOST));
    {
        let mut library = Setup::<W, Q>::blank(&mut *notice_part, &mut *word_part);
        compare_calls(heap, tally, plan, &mut library, &mut twin)?;
    }
    let check = Check::at_step(heap, plan.calls);
    same_lists(check, notice_part, word_part, &twin)
}
