use crate::refused::{no_leave, no_move};
use crate::steps::{claims, enter};
use chain::Chain;
use driver::Setup;
use packed::Packed;
use ring::Blank;
use std::test::Fail;
use types::{Direction, Entry, Refusal};

#[test]
fn move_without_room(rt: HostRuntime) -> Result<(), Fail> {
    let mut places = [Entry::blank(); 1];
    let mut words = [0; 4];
    let mut setup = Setup::<Packed, Chain>::blank(&mut places, &mut words);
    setup.make(3, 0)?;
    claims(&rt, &mut setup, 0, Direction::Read);
    no_move(&rt, &mut setup, 0, Refusal::ArchiveFull);
    Ok(())
}

#[test]
fn leave_without_room(rt: HostRuntime) -> Result<(), Fail> {
    let mut places = [Entry::blank(); 1];
    let mut words = [0; 6];
    let mut setup = Setup::<Packed, Chain>::blank(&mut places, &mut words);
    setup.make(3, 0)?;
    enter(&rt, &mut setup, 0, Direction::Read);
    no_leave(&rt, &mut setup, 0, Refusal::ArchiveFull);
    Ok(())
}
