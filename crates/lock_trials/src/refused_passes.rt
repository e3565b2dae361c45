use crate::refused::no_pass_to_two_readers;
use chain::Chain;
use driver::Setup;
use packed::Packed;
use ring::Blank;
use std::test::Fail;
use types::{Entry, Refusal};

#[test]
fn one_place_for_two_notices(rt: HostRuntime) -> Result<(), Fail> {
    let mut places = [Entry::blank(); 1];
    let mut words = [0; 28];
    let mut setup = Setup::<Packed, Chain>::blank(&mut places, &mut words);
    no_pass_to_two_readers(&rt, &mut setup, Refusal::NoticesFull)
}

#[test]
fn three_places_for_four_words(rt: HostRuntime) -> Result<(), Fail> {
    let mut places = [Entry::blank(); 2];
    let mut words = [0; 28];
    let mut setup = Setup::<Packed, Chain>::blank(&mut places, &mut words);
    no_pass_to_two_readers(&rt, &mut setup, Refusal::ArchiveFull)
}
