use crate::dice::Dice;
use crate::plan::Plan;
use plain::{Call, Order, PlainLock, Step, Verb};

const ODD_NUMBERS: [u32; 12] = [
    0,
    1,
    3,
    63,
    64,
    65,
    127,
    255,
    256,
    65_536,
    0x8000_0000,
    u32::MAX,
];

const VERBS: [Verb; 4] = [
    Verb::ClaimToRead,
    Verb::ClaimToWrite,
    Verb::Move,
    Verb::Leave,
];

// A verb that the task is likely to be granted.
fn fit_verb(dice: &mut Dice, plan: &Plan, step: Step) -> Verb {
    match step {
        Step::Out if dice.one_in(plan.writers) => Verb::ClaimToWrite,
        Step::Out => Verb::ClaimToRead,
        Step::Holding(_) if dice.one_in(plan.patience) => Verb::Leave,
        _ => Verb::Move,
    }
}

fn making(dice: &mut Dice, plan: &Plan) -> Order {
    if dice.one_in(2) {
        return Order::Make {
            tasks: plan.tasks,
            spin: plan.spin,
        };
    }
    let odd_tasks = dice.one_in(2);
    let odd_spin = dice.one_in(2);
    Order::Make {
        tasks: if odd_tasks {
            dice.of(&ODD_NUMBERS)
        } else {
            plan.tasks
        },
        spin: if odd_spin {
            dice.of(&ODD_NUMBERS)
        } else {
            plan.spin
        },
    }
}

// The task that has the queue lock or must pass the lock on, or else the one that was called last.
fn pressing_task(lock: &PlainLock, last: u32) -> u32 {
    let is_pressing = |task: &u32| {
        matches!(
            lock.step_of(*task as usize),
            Some(Step::Queueing(_) | Step::Owing | Step::Passing)
        )
    };
    (0..64).find(is_pressing).unwrap_or(last)
}

fn next_task(dice: &mut Dice, plan: &Plan, lock: &PlainLock, last: u32) -> u32 {
    if dice.one_in(40) {
        dice.of(&ODD_NUMBERS)
    } else if dice.one_in(3) {
        pressing_task(lock, last)
    } else if dice.one_in(plan.wander) || last >= plan.tasks {
        dice.below(plan.tasks)
    } else {
        last
    }
}

// The task of a call; a making has none, and task 0 stands for it.
pub(crate) fn task_of(order: Order) -> u32 {
    match order {
        Order::Make { .. } => 0,
        Order::Call(call) => call.task,
    }
}

pub(crate) fn next_order(dice: &mut Dice, plan: &Plan, lock: &PlainLock, last: u32) -> Order {
    if dice.one_in(if lock.rows.is_empty() { 3 } else { 100 }) {
        return making(dice, plan);
    }
    let task = next_task(dice, plan, lock, last);
    let verb = match lock.step_of(task as usize) {
        Some(step) if !dice.one_in(6) => fit_verb(dice, plan, step),
        _ => dice.of(&VERBS),
    };
    Order::Call(Call { verb, task })
}
