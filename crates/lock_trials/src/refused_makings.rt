use crate::refused::no_making;
use crate::steps::makes;
use driver::Setup;
use queue::WaitQueue;
use rules::Phase;
use std::process::Abort;
use std::test::Fail;
use types::Refusal;
use word::LockWord;

fn making_twice<W: LockWord + Drop, Q: WaitQueue + Drop>(rt: &impl Abort) -> Result<(), Fail> {
    let mut words = [0; 66];
    let mut setup = Setup::<W, Q>::blank(&mut [], &mut words);
    makes(rt, &mut setup, 3, 0);
    no_making(rt, &mut setup, 4, 0, Refusal::AlreadyMade);
    assert_eq!(rt; setup.lock.phase(2), Some(Phase::Out));
    assert_eq!(rt; setup.lock.phase(3), None);
    assert_eq!(rt; setup.archive.len(), 1);
    Ok(())
}

// A making of a blank lock is refused.
fn not_made<W: LockWord + Drop, Q: WaitQueue + Drop>(
    rt: &impl Abort,
    tasks: u32,
    spin: u32,
    words: &mut [u32],
    refusal: Refusal,
) {
    let mut setup = Setup::<W, Q>::blank(&mut [], words);
    no_making(rt, &mut setup, tasks, spin, refusal);
    assert_eq!(rt; setup.lock.phase(0), None);
}

fn too_many_tasks<W: LockWord + Drop, Q: WaitQueue + Drop>(rt: &impl Abort) -> Result<(), Fail> {
    let mut words = [0; 66];
    not_made::<W, Q>(rt, 0, 0, &mut words, Refusal::TasksOutOfRange);
    not_made::<W, Q>(rt, 65, 0, &mut words, Refusal::TasksOutOfRange);
    let mut setup = Setup::<W, Q>::blank(&mut [], &mut words);
    makes(rt, &mut setup, 64, 0);
    assert_eq!(rt; setup.lock.phase(63), Some(Phase::Out));
    assert_eq!(rt; setup.lock.phase(64), None);
    Ok(())
}

fn too_much_spin<W: LockWord + Drop, Q: WaitQueue + Drop>(rt: &impl Abort) -> Result<(), Fail> {
    let mut words = [0; 66];
    not_made::<W, Q>(rt, 3, 256, &mut words, Refusal::SpinOutOfRange);
    let mut setup = Setup::<W, Q>::blank(&mut [], &mut words);
    makes(rt, &mut setup, 3, 255);
    Ok(())
}

fn no_room<W: LockWord + Drop, Q: WaitQueue + Drop>(rt: &impl Abort) -> Result<(), Fail> {
    not_made::<W, Q>(rt, 3, 0, &mut [], Refusal::ArchiveFull);
    Ok(())
}

#[test]
fn already_made(rt: HostRuntime) -> Result<(), Fail> {
    on_every_kind!(making_twice, &rt)
}

#[test]
fn tasks_out_of_range(rt: HostRuntime) -> Result<(), Fail> {
    on_every_kind!(too_many_tasks, &rt)
}

#[test]
fn spin_out_of_range(rt: HostRuntime) -> Result<(), Fail> {
    on_every_kind!(too_much_spin, &rt)
}

#[test]
fn archive_without_a_place(rt: HostRuntime) -> Result<(), Fail> {
    on_every_kind!(no_room, &rt)
}
