// A wait queue as a chain of places, one for each task, that remembers its last reader and counts its readers: a reader
// joins without a search.
#![tactic(auto)]

ghost use Rattle.chain.specs.Walks.{Laws, Agrees, held};
ghost use Rattle.std.proofs.Common.{rules};

mod places;

use places::{Links, NONE, PLACES, Place};
use queue::WaitQueue;
use types::{Direction, Entry};

#[derive(Clone, Copy)]
pub struct Chain {
    links: Links,
    ghost laws: { Laws (held links) },
    ghost agrees: { Agrees links },
}

impl WaitQueue for Chain {
    ghost entries = { λ q. held q.links };

    ghost in_range = { Prim.search rules };

    ghost none_twice = { Prim.search rules };

    ghost neighbours = { Prim.search rules };

    fn fresh() -> Chain {
        let blank = Place {
            next: NONE,
            direction: Direction::Read,
            present: false,
        };
        let links = Links {
            places: [blank; PLACES],
            head: NONE,
            tail: NONE,
            last_reader: NONE,
            readers: 0,
            len: 0,
        };
        Chain { links }
    }

    fn join(&mut self, task: u32, direction: Direction) -> bool {
        let place = task as usize;
        if place >= PLACES || self.links.places[place].present {
            return false;
        }
        self.links.join(task as u8, direction);
        true
    }

    fn first(&self) -> Option<Entry> {
        if self.links.len == 0 {
            return None;
        }
        let task = self.links.head;
        let direction = self.links.places[task as usize].direction;
        Some(Entry { task, direction })
    }

    fn take_first(&mut self) -> Option<Entry> {
        let entry = self.first()?;
        self.links.unlink_first();
        Some(entry)
    }

    fn len(&self) -> u32 {
        self.links.len as u32
    }

    fn readers(&self) -> u32 {
        self.links.readers as u32
    }

    fn entry_at(&self, place: u32) -> Option<Entry> {
        if place >= self.links.len as u32 {
            return None;
        }
        let mut task = self.links.head;
        let mut left = place;
        // The last is known without a walk.
        if place + 1 == self.links.len as u32 {
            task = self.links.tail;
            left = 0;
        }
        while left > 0 {
            task = self.links.places[task as usize].next;
            left -= 1;
        }
        let direction = self.links.places[task as usize].direction;
        Some(Entry { task, direction })
    }
}
