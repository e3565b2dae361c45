use crate::steps::{enter, leave_to_pass, leaves, wait};
use driver::Setup;
use packed::Packed;
use queue::WaitQueue;
use ring::Blank;
use std::process::Abort;
use std::test::Fail;
use types::{Direction, Entry, Outcome};
use word::LockWord;

const WRITER: Entry = Entry {
    task: 1,
    direction: Direction::Write,
};

const READER: Entry = Entry {
    task: 2,
    direction: Direction::Read,
};

// Task 0 writes, and behind it task 1 waits to write and task 2 to read.
fn writer_with_two_behind<W: LockWord + Drop, Q: WaitQueue + Drop>(
    rt: &impl Abort,
    setup: &mut Setup<W, Q>,
) -> Result<(), Fail> {
    setup.make(3, 0)?;
    enter(rt, setup, 0, Direction::Write);
    wait(rt, setup, 1, Direction::Write);
    wait(rt, setup, 2, Direction::Read);
    Ok(())
}

// The task leaves and passes the lock on to one task, which gets a notice.
fn hand_to<W: LockWord + Drop, Q: WaitQueue + Drop>(
    rt: &impl Abort,
    setup: &mut Setup<W, Q>,
    from: u32,
    to: Entry,
) {
    leave_to_pass(rt, setup, from);
    let answer = setup
        .lock
        .advance(from, &mut setup.notices, &mut setup.archive);
    assert_eq!(rt; answer, Ok(Outcome::Passed(1)));
    assert_eq!(rt; setup.notices.take(), Some(to));
}

// The marks and the queue at each stage.
fn marks<W: LockWord + Drop, Q: WaitQueue + Drop>(rt: &impl Abort) -> Result<(), Fail> {
    let mut places = [Entry::blank(); 64];
    let mut words = [0; 66];
    let mut setup = Setup::<W, Q>::blank(&mut places, &mut words);
    writer_with_two_behind(rt, &mut setup)?;
    assert!(rt; setup.lock.is_locked() && setup.lock.writers_wait() && setup.lock.readers_wait());
    assert_eq!(rt; setup.lock.queued(1), Some(READER));
    hand_to(rt, &mut setup, 0, WRITER);
    assert!(rt; setup.lock.is_locked() && !setup.lock.writers_wait() && setup.lock.readers_wait());
    hand_to(rt, &mut setup, 1, READER);
    assert!(rt;
        !setup.lock.is_locked() && !setup.lock.writers_wait() && !setup.lock.readers_wait()
    );
    assert_eq!(rt; setup.lock.count(2 % W::GROUPS), 1);
    leaves(rt, &mut setup, 2, Outcome::Out);
    assert_eq!(rt; setup.lock.count(2 % W::GROUPS), 0);
    Ok(())
}

// The bits of the packed word at each stage.
fn bits<Q: WaitQueue + Drop>(rt: &impl Abort) -> Result<(), Fail> {
    let mut places = [Entry::blank(); 64];
    let mut words = [0; 66];
    let mut setup = Setup::<Packed, Q>::blank(&mut places, &mut words);
    writer_with_two_behind(rt, &mut setup)?;
    assert_eq!(rt; setup.lock.word().bits(), 0xe000_0000);
    hand_to(rt, &mut setup, 0, WRITER);
    assert_eq!(rt; setup.lock.word().bits(), 0xa000_0000);
    hand_to(rt, &mut setup, 1, READER);
    assert_eq!(rt; setup.lock.word().bits(), 0x0000_0001);
    leaves(rt, &mut setup, 2, Outcome::Out);
    assert_eq!(rt; setup.lock.word().bits(), 0);
    Ok(())
}

#[test]
fn marks_in_a_hand_over(rt: HostRuntime) -> Result<(), Fail> {
    on_every_kind!(marks, &rt)
}

#[test]
fn bits_in_a_hand_over(rt: HostRuntime) -> Result<(), Fail> {
    bits::<chain::Chain>(&rt)?;
    bits::<strips::Strips>(&rt)
}
