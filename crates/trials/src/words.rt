use grouped::Grouped;
use packed::Packed;
use std::process::Abort;
use types::Direction;
use word::LockWord;

// What every kind of word does with one writer, then one reader of the last group.
fn enters_and_leaves<W: LockWord + Drop>(rt: &impl Abort) {
    let mut word = W::fresh();
    assert!(rt; word.enter_to_write());
    assert!(rt; !word.enter_to_write());
    assert!(rt; !word.enter_to_read(0));
    word.mark_waiters(Direction::Read);
    assert!(rt; !word.leave_writing());
    word.pass_to_readers(false);
    assert!(rt; word.admit_reader(0));
    assert_eq!(rt; word.count(0), 1);
    assert!(rt; word.leave_reading(0));
    assert!(rt; !word.leave_reading(0));
    assert!(rt; !word.is_locked() && !word.writers_wait() && !word.readers_wait());
}

// Group numbers past the end are answered by a no and by 0.
fn refuses_groups_past_the_end<W: LockWord + Drop>(rt: &impl Abort, past: u32) {
    let mut word = W::fresh();
    assert!(rt; !word.enter_to_read(past));
    assert!(rt; !word.admit_reader(u32::MAX));
    assert!(rt; !word.leave_reading(past));
    assert_eq!(rt; word.count(u32::MAX), 0);
}

#[test]
fn a_writer_and_a_reader(rt: HostRuntime) {
    enters_and_leaves::<Packed>(&rt);
    enters_and_leaves::<Grouped>(&rt);
}

#[test]
fn groups_past_the_end(rt: HostRuntime) {
    refuses_groups_past_the_end::<Packed>(&rt, 1);
    refuses_groups_past_the_end::<Grouped>(&rt, 8);
}

#[test]
fn bits_of_the_packed_word(rt: HostRuntime) {
    let mut word = <Packed as LockWord>::fresh();
    assert!(rt; word.enter_to_write());
    word.mark_waiters(Direction::Write);
    word.mark_waiters(Direction::Read);
    assert_eq!(rt; word.bits(), 0xe000_0000);
    assert!(rt; word.pass_to_writer(false, true));
    assert_eq!(rt; word.bits(), 0xa000_0000);
    word.pass_to_readers(false);
    assert!(rt; word.admit_reader(0));
    assert_eq!(rt; word.bits(), 0x0000_0001);
}

#[test]
fn sizes_of_the_kinds(rt: HostRuntime) {
    assert_eq!(rt; <Packed as LockWord>::GROUPS, 1);
    assert_eq!(rt; <Packed as LockWord>::LIMIT, 536_870_911);
    assert_eq!(rt; <Grouped as LockWord>::GROUPS, 8);
    assert_eq!(rt; <Grouped as LockWord>::LIMIT, 65_535);
}
