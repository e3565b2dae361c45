// Calls that are accepted, and runs of them.
use driver::Setup;
use queue::WaitQueue;
use std::process::Abort;
use types::{Direction, Outcome, Verb};
use word::LockWord;

// A making is accepted.
pub(crate) fn makes<W: LockWord + Drop, Q: WaitQueue + Drop>(
    rt: &impl Abort,
    setup: &mut Setup<W, Q>,
    tasks: u32,
    spin: u32,
) {
    assert_eq!(rt; setup.lock.make(tasks, spin, &mut setup.archive), Ok(()));
}

// A claim is accepted.
pub(crate) fn claims<W: LockWord + Drop, Q: WaitQueue + Drop>(
    rt: &impl Abort,
    setup: &mut Setup<W, Q>,
    task: u32,
    direction: Direction,
) {
    assert_eq!(rt;
        setup.lock.claim(task, direction, &mut setup.archive),
        Ok(Outcome::Claimed)
    );
}

// A leave is accepted, and comes to the outcome.
pub(crate) fn leaves<W: LockWord + Drop, Q: WaitQueue + Drop>(
    rt: &impl Abort,
    setup: &mut Setup<W, Q>,
    task: u32,
    outcome: Outcome,
) {
    assert_eq!(rt; setup.lock.leave(task, &mut setup.archive), Ok(outcome));
}

// The task moves once for each outcome, and comes to it.
fn moves<W: LockWord + Drop, Q: WaitQueue + Drop>(
    rt: &impl Abort,
    setup: &mut Setup<W, Q>,
    task: u32,
    outcomes: &[Outcome],
) {
    for outcome in outcomes {
        assert_eq!(rt; setup.call(Verb::Move, task), Ok(*outcome));
    }
}

// The task claims the lock and is granted it at once.
pub(crate) fn enter<W: LockWord + Drop, Q: WaitQueue + Drop>(
    rt: &impl Abort,
    setup: &mut Setup<W, Q>,
    task: u32,
    direction: Direction,
) {
    claims(rt, setup, task, direction);
    moves(rt, setup, task, &[Outcome::Granted(1)]);
}

// The task claims the lock in vain and is queued.
pub(crate) fn wait<W: LockWord + Drop, Q: WaitQueue + Drop>(
    rt: &impl Abort,
    setup: &mut Setup<W, Q>,
    task: u32,
    direction: Direction,
) {
    let outcomes = [
        Outcome::ToQueueLock(1),
        Outcome::HasQueueLock,
        Outcome::Queued(2),
    ];
    claims(rt, setup, task, direction);
    moves(rt, setup, task, &outcomes);
}

// The task leaves while others wait, and gets the queue lock.
pub(crate) fn leave_to_pass<W: LockWord + Drop, Q: WaitQueue + Drop>(
    rt: &impl Abort,
    setup: &mut Setup<W, Q>,
    task: u32,
) {
    leaves(rt, setup, task, Outcome::Owes);
    moves(rt, setup, task, &[Outcome::HasQueueLock]);
}
