// The first refusal that fits is the one given, also where the rings are full.
use crate::refused::{no_call, no_claim, no_leave, no_making, no_move};
use crate::steps::enter;
use chain::Chain;
use driver::Setup;
use packed::Packed;
use ring::Blank;
use std::test::Fail;
use types::{Direction, Entry, Refusal};

#[test]
fn no_task(rt: HostRuntime) -> Result<(), Fail> {
    let mut words = [0; 1];
    let mut setup = Setup::<Packed, Chain>::blank(&mut [], &mut words);
    no_call(&rt, &mut setup, 0, Refusal::NotMade);
    setup.make(3, 0)?;
    no_call(&rt, &mut setup, 3, Refusal::NoSuchTask);
    no_call(&rt, &mut setup, u32::MAX, Refusal::NoSuchTask);
    Ok(())
}

#[test]
fn unfit_phases(rt: HostRuntime) -> Result<(), Fail> {
    let mut places = [Entry::blank(); 1];
    let mut words = [0; 5];
    let mut setup = Setup::<Packed, Chain>::blank(&mut places, &mut words);
    setup.make(3, 0)?;
    no_move(&rt, &mut setup, 0, Refusal::CannotMove);
    no_leave(&rt, &mut setup, 0, Refusal::HoldsNothing);
    enter(&rt, &mut setup, 0, Direction::Write);
    no_claim(&rt, &mut setup, 0, Refusal::NotOut);
    no_move(&rt, &mut setup, 0, Refusal::CannotMove);
    Ok(())
}

#[test]
fn claim_without_room(rt: HostRuntime) -> Result<(), Fail> {
    let mut words = [0; 2];
    let mut setup = Setup::<Packed, Chain>::blank(&mut [], &mut words);
    setup.make(3, 0)?;
    no_claim(&rt, &mut setup, 0, Refusal::ArchiveFull);
    Ok(())
}

#[test]
fn tasks_before_spin(rt: HostRuntime) {
    let mut setup = Setup::<Packed, Chain>::blank(&mut [], &mut []);
    no_making(&rt, &mut setup, 0, 256, Refusal::TasksOutOfRange);
    no_making(&rt, &mut setup, 3, 0, Refusal::ArchiveFull);
}
