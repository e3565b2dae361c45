use queue::WaitQueue;
use std::process::Abort;
use types::{Direction, Entry};

fn entry(task: u8, direction: Direction) -> Option<Entry> {
    Some(Entry { task, direction })
}

// A reader joins behind the last reader, ahead of the writers there.
fn keeps_readers_together<Q: WaitQueue + Drop>(rt: &impl Abort) {
    let mut queue = Q::fresh();
    assert!(rt; queue.join(5, Direction::Write));
    assert!(rt; queue.join(63, Direction::Read));
    assert!(rt; queue.join(0, Direction::Write));
    assert!(rt; queue.join(7, Direction::Read));
    assert_eq!(rt; queue.entry_at(2), entry(7, Direction::Read));
    assert_eq!(rt; queue.entry_at(3), entry(0, Direction::Write));
    assert_eq!(rt; queue.entry_at(4), None);
    assert_eq!(rt; queue.take_first(), entry(5, Direction::Write));
    assert_eq!(rt; queue.take_first(), entry(63, Direction::Read));
    assert_eq!(rt; queue.take_first(), entry(7, Direction::Read));
    assert_eq!(rt; queue.first(), entry(0, Direction::Write));
    assert_eq!(rt; queue.len(), 1);
}

// Tasks from 64 up and tasks that wait already are refused, and nothing alters.
fn refuses_bad_tasks<Q: WaitQueue + Drop>(rt: &impl Abort) {
    let mut queue = Q::fresh();
    assert_eq!(rt; queue.first(), None);
    assert_eq!(rt; queue.take_first(), None);
    assert!(rt; !queue.join(64, Direction::Read));
    assert!(rt; !queue.join(u32::MAX, Direction::Write));
    assert!(rt; queue.join(3, Direction::Read));
    assert!(rt; !queue.join(3, Direction::Write));
    assert_eq!(rt; queue.len(), 1);
    assert_eq!(rt; queue.entry_at(u32::MAX), None);
}

// All 64 tasks fit, in any direction.
fn holds_every_task<Q: WaitQueue + Drop>(rt: &impl Abort, direction: Direction) {
    let mut queue = Q::fresh();
    for task in 0..64 {
        assert!(rt; queue.join(task, direction));
    }
    assert_eq!(rt; queue.len(), 64);
    assert_eq!(rt; queue.entry_at(63), entry(63, direction));
}

#[test]
fn readers_are_neighbours(rt: HostRuntime) {
    keeps_readers_together::<chain::Chain>(&rt);
    keeps_readers_together::<strips::Strips>(&rt);
}

#[test]
fn bad_tasks(rt: HostRuntime) {
    refuses_bad_tasks::<chain::Chain>(&rt);
    refuses_bad_tasks::<strips::Strips>(&rt);
}

#[test]
fn full_queues(rt: HostRuntime) {
    holds_every_task::<chain::Chain>(&rt, Direction::Read);
    holds_every_task::<chain::Chain>(&rt, Direction::Write);
    holds_every_task::<strips::Strips>(&rt, Direction::Read);
    holds_every_task::<strips::Strips>(&rt, Direction::Write);
}
