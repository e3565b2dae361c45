// Two locks above one pair of rings.
use chain::Chain;
use driver::{Trouble, run_call, run_line};
use lock::Lock;
use packed::Packed;
use ring::{Blank, Ring};
use rules::Phase;
use std::test::Fail;
use types::{Direction, Entry, Outcome, Refusal, Verb};

// Each lock answers by what it did itself, and finds the room that the other left in the archive.
#[test]
fn lines_of_two_locks(rt: HostRuntime) -> Result<(), Fail> {
    let mut places = [Entry::blank(); 64];
    let mut words = [0; 3];
    let mut notices = Ring::over(&mut places);
    let mut archive = Ring::over(&mut words);
    let mut first = Lock::<Packed, Chain>::blank();
    let mut second = Lock::<Packed, Chain>::blank();
    run_line(&mut first, &mut notices, &mut archive, b"n 3 5")?;
    let unmade = run_line(&mut second, &mut notices, &mut archive, b"w 0");
    assert_eq!(rt; unmade, Err(Trouble::Call(Refusal::NotMade)));
    run_line(&mut first, &mut notices, &mut archive, b"w 0")?;
    let full = run_line(&mut second, &mut notices, &mut archive, b"n 2 0");
    assert_eq!(rt; full, Err(Trouble::Call(Refusal::ArchiveFull)));
    for word in [0x1000_0503, 0x2200_0000, 0x3000_0000] {
        assert_eq!(rt; archive.take(), Some(word));
    }
    run_line(&mut second, &mut notices, &mut archive, b"n 2 0")?;
    assert_eq!(rt; archive.take(), Some(0x1000_0002));
    let granted = run_call(&mut first, &mut notices, &mut archive, Verb::Move, 0);
    assert_eq!(rt; granted, Ok(Outcome::Granted(1)));
    assert_eq!(rt; first.phase(0), Some(Phase::Holding(Direction::Write)));
    assert_eq!(rt; second.phase(0), Some(Phase::Out));
    Ok(())
}
