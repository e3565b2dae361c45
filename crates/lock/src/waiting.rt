// Who waits in a queue.
ghost use Rattle.std.specs.Prelude.{◌≡◌};
ghost use Rattle.lock.specs.Taken.{front, waits};

use queue::WaitQueue;
use types::{Direction, Entry};

// The entry at the front, if it waits in that direction.
pub(crate) fn front<Q: WaitQueue>(queue: &Q, direction: Direction) -> Option<Entry>
    ensures { result ≡ front direction (Q.WaitQueue.entries queue.now) }
{
    queue.first().filter(|entry| entry.direction == direction)
}

// Whether some entry waits in that direction.
#[tactic(auto, using(queue::proofs::Readers::reader_some, queue::proofs::Readers::writer_some, crate::proofs::Fronts::writer_same))]
pub(crate) fn waits<Q: WaitQueue>(queue: &Q, direction: Direction) -> bool
    ensures { result ≡ waits direction (Q.WaitQueue.entries queue.now) }
{
    match direction {
        Direction::Read => queue.readers() > 0,
        Direction::Write => queue.readers() < queue.len(),
    }
}
