use crate::list::List;
use crate::rows::Direction;

#[derive(Clone, Copy, PartialEq, Eq, Debug)]
pub struct Waiter {
    pub task: u8,
    pub direction: Direction,
}

// The blank notice: no task has the number 255.
impl Default for Waiter {
    fn default() -> Waiter {
        Waiter {
            task: 255,
            direction: Direction::Read,
        }
    }
}

pub type Waiters = List<Waiter, 64>;

pub(crate) fn nobody() -> Waiters {
    List::empty(Waiter::default())
}

// A writer goes to the end, a reader behind the last reader, or to the end when there is none.
pub(crate) fn join(queue: &mut Waiters, newcomer: Waiter) {
    let last_reader = queue
        .iter()
        .rposition(|waiter| waiter.direction == Direction::Read);
    let place = match (newcomer.direction, last_reader) {
        (Direction::Read, Some(place)) => place + 1,
        _ => queue.len(),
    };
    // No task waits twice, so one of the 64 places is free.
    queue.insert(place, newcomer);
}

// Those whom a pass takes: a writer at the front alone, or all readers at the front.
pub(crate) fn front(queue: &[Waiter]) -> &[Waiter] {
    let readers = queue
        .iter()
        .take_while(|waiter| waiter.direction == Direction::Read)
        .count();
    queue.get(..readers.max(1)).unwrap_or(queue)
}

// Whether one of that direction waits.
pub(crate) fn waits(queue: &[Waiter], direction: Direction) -> bool {
    queue.iter().any(|waiter| waiter.direction == direction)
}
