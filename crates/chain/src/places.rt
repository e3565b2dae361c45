// The places of a chain: one for each task, with the number of the next place. The last place of the chain, the last
// reader's and the number of readers are remembered, so that none is searched for.
ghost use Rattle.std.specs.Prelude.{◌≡◌, ◌<◌, true, if◌then◌else◌, nat_eq};
ghost use Rattle.queue.specs.Queues.{can_join, placed, rest};
ghost use Rattle.chain.specs.Walks.{Laws, Agrees, Linkable, Linked, held, goes_behind, readers_in, remembered};

use types::Direction;

// One place for each task, 0 to 63.
pub(crate) const PLACES: usize = 64;

// The number that stands for no place. (No options: a walk would test each that it goes over, and take half as long again.)
pub(crate) const NONE: u8 = 64;

#[derive(Clone, Copy)]
pub(crate) struct Place {
    pub(crate) next: u8,
    pub(crate) direction: Direction,
    pub(crate) present: bool,
}

#[derive(Clone, Copy)]
pub(crate) struct Links {
    pub(crate) places: [Place; PLACES],
    pub(crate) head: u8,
    pub(crate) tail: u8,
    pub(crate) last_reader: u8,
    pub(crate) readers: u8,
    pub(crate) len: u8,
}

impl Links {
    // Puts a task that may join where its direction says.
    pub(crate) fn join(&mut self, task: u8, direction: Direction)
        requires laws { Laws (held self.old) }
        requires agrees { Agrees self.old }
        requires can { can_join task (held self.old) ≡ true }
        ensures queue { held self.new ≡ placed task direction (held self.old) }
        ensures agrees { Agrees self.new }
    {
        let behind = self.goes_behind(direction);
        self.remember(behind, task, direction);
        self.link(behind, task, direction);
    }

    // The place that a task of this direction goes behind, or none in an empty chain.
    fn goes_behind(&self, direction: Direction) -> u8
        requires { Agrees self.now }
        ensures { result ≡ goes_behind direction (held self.now) }
    {
        match direction {
            Direction::Read if self.last_reader != NONE => self.last_reader,
            _ => self.tail,
        }
    }

    // The task is now last if it goes behind the last, and the last reader if it reads. Readers are counted.
    fn remember(&mut self, behind: u8, task: u8, direction: Direction)
        requires { self.old.readers < 64 }
        ensures { self.new ≡ remembered behind task direction self.old }
    {
        if behind == self.tail {
            self.tail = task;
        }
        if let Direction::Read = direction {
            self.last_reader = task;
        }
        self.readers += readers_in(direction);
    }

    // Puts the place of a task behind a place of the chain, or first where the chain is empty.
    fn link(&mut self, behind: u8, task: u8, direction: Direction)
        requires { Linkable self.old behind task }
        ensures { Linked self.old self.new behind task direction }
    {
        if self.len == 0 {
            self.places[task as usize] = Place {
                next: NONE,
                direction,
                present: true,
            };
            self.head = task;
        } else {
            let next = self.places[behind as usize].next;
            self.places[task as usize] = Place {
                next,
                direction,
                present: true,
            };
            self.places[behind as usize].next = task;
        }
        self.len += 1;
    }

    // Takes the first place out of a chain that has one.
    pub(crate) fn unlink_first(&mut self)
        requires laws { Laws (held self.old) }
        requires agrees { Agrees self.old }
        requires some { 0 < self.old.len }
        ensures queue { held self.new ≡ rest (held self.old) }
        ensures agrees { Agrees self.new }
    {
        let task = self.head;
        let first = self.places[task as usize];
        self.head = first.next;
        self.places[task as usize].present = false;
        self.len -= 1;
        self.tail = except(self.tail, task);
        self.last_reader = except(self.last_reader, task);
        self.readers -= readers_in(first.direction);
    }
}

// The place, or none if it is the one that leaves.
fn except(place: u8, leaving: u8) -> u8
    ensures { result ≡ (if nat_eq place leaving then 64 else place) }
{
    if place == leaving { NONE } else { place }
}

// One for a reader, none for a writer.
fn readers_in(direction: Direction) -> u8
    ensures { result ≡ readers_in direction }
{
    match direction {
        Direction::Read => 1,
        Direction::Write => 0,
    }
}
