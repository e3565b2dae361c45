// A wait queue as three strips of task numbers and a flag for each task. No call takes longer in a longer queue.
#![tactic(auto)]

ghost use Rattle.std.specs.Prelude.{◌≡◌, true, length};
ghost use Rattle.queue.specs.Queues.{tasks_in_range, no_task_twice, readers_are_neighbours};
ghost use Rattle.strips.specs.Entries.{entries_of, Flagged};
ghost use Rattle.std.proofs.Common.{rules};

mod parts;
mod strip;

use parts::Parts;
use queue::WaitQueue;
use strip::PLACES;
use types::{Direction, Entry};

// `present` tells of each task from 0 to 63 whether it is in the queue.
#[derive(Drop)]
pub struct Strips {
    parts: Parts,
    present: [bool; PLACES],
    ghost flags: { length present ≡ 64 },
    ghost in_range: { tasks_in_range (entries_of parts) ≡ true },
    ghost none_twice: { no_task_twice (entries_of parts) ≡ true },
    ghost neighbours: { readers_are_neighbours (entries_of parts) ≡ true },
    ghost flagged: { Flagged present (entries_of parts) },
}

impl WaitQueue for Strips {
    ghost entries = { λ q. entries_of q.parts };

    ghost in_range = { Prim.search rules };

    ghost none_twice = { Prim.search rules };

    ghost neighbours = { Prim.search rules };

    fn fresh() -> Strips {
        Strips {
            parts: Parts::empty(),
            present: [false; PLACES],
        }
    }

    fn join(&mut self, task: u32, direction: Direction) -> bool {
        let place = task as usize;
        if place >= PLACES || self.present[place] {
            return false;
        }
        self.parts.place(task as u8, direction);
        self.present[place] = true;
        true
    }

    fn first(&self) -> Option<Entry> {
        self.parts.entry_at(0)
    }

    fn take_first(&mut self) -> Option<Entry> {
        let first = self.parts.take_first()?;
        self.present[first.task as usize] = false;
        Some(first)
    }

    fn len(&self) -> u32 {
        self.parts.len()
    }

    fn readers(&self) -> u32 {
        self.parts.readers()
    }

    fn entry_at(&self, place: u32) -> Option<Entry> {
        self.parts.entry_at(place)
    }
}
