// Calls that are refused and alter nothing.
use crate::steps::{enter, leave_to_pass, wait};
use driver::Setup;
use queue::WaitQueue;
use rules::Phase;
use std::process::Abort;
use std::test::Fail;
use types::{Direction, Refusal};
use word::LockWord;

// What a refused call leaves as it was: the phase of its task, and the free places of both rings.
#[derive(Clone, Copy, PartialEq, Eq, Debug)]
struct Seen {
    phase: Option<Phase>,
    notices: usize,
    archive: usize,
}

impl Seen {
    fn of<W: LockWord + Drop, Q: WaitQueue + Drop>(setup: &Setup<W, Q>, task: u32) -> Seen {
        Seen {
            phase: setup.lock.phase(task),
            notices: setup.notices.free(),
            archive: setup.archive.free(),
        }
    }
}

// A making is refused, and nothing alters.
pub(crate) fn no_making<W: LockWord + Drop, Q: WaitQueue + Drop>(
    rt: &impl Abort,
    setup: &mut Setup<W, Q>,
    tasks: u32,
    spin: u32,
    refusal: Refusal,
) {
    let before = Seen::of(setup, 0);
    assert_eq!(rt;
        setup.lock.make(tasks, spin, &mut setup.archive),
        Err(refusal)
    );
    assert_eq!(rt; Seen::of(setup, 0), before);
}

// A claim is refused, and nothing alters.
pub(crate) fn no_claim<W: LockWord + Drop, Q: WaitQueue + Drop>(
    rt: &impl Abort,
    setup: &mut Setup<W, Q>,
    task: u32,
    refusal: Refusal,
) {
    let before = Seen::of(setup, task);
    let answer = setup.lock.claim(task, Direction::Read, &mut setup.archive);
    assert_eq!(rt; answer, Err(refusal));
    assert_eq!(rt; Seen::of(setup, task), before);
}

// A move is refused, and nothing alters.
pub(crate) fn no_move<W: LockWord + Drop, Q: WaitQueue + Drop>(
    rt: &impl Abort,
    setup: &mut Setup<W, Q>,
    task: u32,
    refusal: Refusal,
) {
    let before = Seen::of(setup, task);
    let answer = setup
        .lock
        .advance(task, &mut setup.notices, &mut setup.archive);
    assert_eq!(rt; answer, Err(refusal));
    assert_eq!(rt; Seen::of(setup, task), before);
}

// A leave is refused, and nothing alters.
pub(crate) fn no_leave<W: LockWord + Drop, Q: WaitQueue + Drop>(
    rt: &impl Abort,
    setup: &mut Setup<W, Q>,
    task: u32,
    refusal: Refusal,
) {
    let before = Seen::of(setup, task);
    assert_eq!(rt; setup.lock.leave(task, &mut setup.archive), Err(refusal));
    assert_eq!(rt; Seen::of(setup, task), before);
}

// Every call of a task that the lock does not have is refused.
pub(crate) fn no_call<W: LockWord + Drop, Q: WaitQueue + Drop>(
    rt: &impl Abort,
    setup: &mut Setup<W, Q>,
    task: u32,
    refusal: Refusal,
) {
    no_claim(rt, setup, task, refusal);
    no_move(rt, setup, task, refusal);
    no_leave(rt, setup, task, refusal);
    assert_eq!(rt; setup.lock.phase(task), None);
}

// Task 0 wrote and is to pass the lock on to two readers, which is refused. So far 25 words are written.
pub(crate) fn no_pass_to_two_readers<W: LockWord + Drop, Q: WaitQueue + Drop>(
    rt: &impl Abort,
    setup: &mut Setup<W, Q>,
    refusal: Refusal,
) -> Result<(), Fail> {
    setup.make(3, 0)?;
    enter(rt, setup, 0, Direction::Write);
    wait(rt, setup, 1, Direction::Read);
    wait(rt, setup, 2, Direction::Read);
    leave_to_pass(rt, setup, 0);
    no_move(rt, setup, 0, refusal);
    assert_eq!(rt; setup.lock.phase(0), Some(Phase::Passing));
    assert_eq!(rt; setup.lock.queue_len(), 2);
    assert_eq!(rt; setup.lock.queue().len(), 2);
    Ok(())
}
