use crate::refused::{no_call, no_claim, no_leave, no_move, no_pass_to_two_readers};
use crate::steps::claims;
use driver::Setup;
use queue::WaitQueue;
use ring::Blank;
use rules::Phase;
use std::process::Abort;
use std::test::Fail;
use types::{Direction, Entry, Refusal};
use word::LockWord;

fn one_place_left<W: LockWord + Drop, Q: WaitQueue + Drop>(rt: &impl Abort) -> Result<(), Fail> {
    let mut words = [0; 2];
    let mut setup = Setup::<W, Q>::blank(&mut [], &mut words);
    setup.make(3, 0)?;
    assert_eq!(rt; setup.archive.free(), 1);
    no_claim(rt, &mut setup, 0, Refusal::ArchiveFull);
    assert_eq!(rt; setup.lock.phase(0), Some(Phase::Out));
    Ok(())
}

fn blank_lock<W: LockWord + Drop, Q: WaitQueue + Drop>(rt: &impl Abort) -> Result<(), Fail> {
    let mut places = [Entry::blank(); 64];
    let mut words = [0; 66];
    let mut setup = Setup::<W, Q>::blank(&mut places, &mut words);
    no_call(rt, &mut setup, 0, Refusal::NotMade);
    Ok(())
}

fn tasks_past_the_end<W: LockWord + Drop, Q: WaitQueue + Drop>(
    rt: &impl Abort,
) -> Result<(), Fail> {
    let mut places = [Entry::blank(); 64];
    let mut words = [0; 66];
    let mut setup = Setup::<W, Q>::blank(&mut places, &mut words);
    setup.make(3, 0)?;
    setup.archive.clear();
    no_call(rt, &mut setup, 3, Refusal::NoSuchTask);
    no_call(rt, &mut setup, u32::MAX, Refusal::NoSuchTask);
    Ok(())
}

fn claiming_twice<W: LockWord + Drop, Q: WaitQueue + Drop>(rt: &impl Abort) -> Result<(), Fail> {
    let mut words = [0; 66];
    let mut setup = Setup::<W, Q>::blank(&mut [], &mut words);
    setup.make(3, 0)?;
    claims(rt, &mut setup, 0, Direction::Write);
    no_claim(rt, &mut setup, 0, Refusal::NotOut);
    assert_eq!(rt;
        setup.lock.phase(0),
        Some(Phase::Claiming(Direction::Write))
    );
    Ok(())
}

fn moving_while_out<W: LockWord + Drop, Q: WaitQueue + Drop>(rt: &impl Abort) -> Result<(), Fail> {
    let mut places = [Entry::blank(); 64];
    let mut words = [0; 66];
    let mut setup = Setup::<W, Q>::blank(&mut places, &mut words);
    setup.make(3, 0)?;
    no_move(rt, &mut setup, 0, Refusal::CannotMove);
    assert_eq!(rt; setup.lock.phase(0), Some(Phase::Out));
    Ok(())
}

fn two_readers_and_one_place<W: LockWord + Drop, Q: WaitQueue + Drop>(
    rt: &impl Abort,
) -> Result<(), Fail> {
    let mut places = [Entry::blank(); 1];
    let mut words = [0; 66];
    let mut setup = Setup::<W, Q>::blank(&mut places, &mut words);
    no_pass_to_two_readers(rt, &mut setup, Refusal::NoticesFull)
}

fn leaving_while_out<W: LockWord + Drop, Q: WaitQueue + Drop>(rt: &impl Abort) -> Result<(), Fail> {
    let mut words = [0; 66];
    let mut setup = Setup::<W, Q>::blank(&mut [], &mut words);
    setup.make(3, 0)?;
    no_leave(rt, &mut setup, 0, Refusal::HoldsNothing);
    assert_eq!(rt; setup.lock.phase(0), Some(Phase::Out));
    Ok(())
}

#[test]
fn archive_with_one_place(rt: HostRuntime) -> Result<(), Fail> {
    on_every_kind!(one_place_left, &rt)
}

#[test]
fn not_made(rt: HostRuntime) -> Result<(), Fail> {
    on_every_kind!(blank_lock, &rt)
}

#[test]
fn no_such_task(rt: HostRuntime) -> Result<(), Fail> {
    on_every_kind!(tasks_past_the_end, &rt)
}

#[test]
fn not_out(rt: HostRuntime) -> Result<(), Fail> {
    on_every_kind!(claiming_twice, &rt)
}

#[test]
fn cannot_move(rt: HostRuntime) -> Result<(), Fail> {
    on_every_kind!(moving_while_out, &rt)
}

#[test]
fn notices_with_one_place(rt: HostRuntime) -> Result<(), Fail> {
    on_every_kind!(two_readers_and_one_place, &rt)
}

#[test]
fn holds_nothing(rt: HostRuntime) -> Result<(), Fail> {
    on_every_kind!(leaving_while_out, &rt)
}
