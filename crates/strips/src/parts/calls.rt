// What can be asked of the three parts together.
ghost use Rattle.std.specs.Prelude.{◌≡◌, ◌<◌, [], length};
ghost use Rattle.queue.specs.Queues.{reader_count, placed, first, rest, entry_at};
ghost use Rattle.strips.specs.Entries.{entries_of};

use crate::parts::Parts;
use crate::strip::Strip;
use types::{Direction, Entry};

impl Parts {
    #[tactic(auto, unfolding(crate::specs::Entries::lined))]
    pub(crate) fn empty() -> Parts
        ensures { entries_of result ≡ [] }
    {
        Parts {
            ahead: Strip::empty(),
            readers: Strip::empty(),
            behind: Strip::empty(),
        }
    }

    // A writer goes to the end, a reader directly behind the last reader.
    #[tactic(auto, using(crate::proofs::Lined::length_lined))]
    pub(crate) fn place(&mut self, task: u8, direction: Direction)
        requires { length (entries_of self.old) < 64 }
        ensures { entries_of self.new ≡ placed task direction (entries_of self.old) }
    {
        match direction {
            Direction::Read => self.readers.push(task),
            Direction::Write => {
                if self.readers.len() == 0 {
                    self.ahead.push(task);
                } else {
                    self.behind.push(task);
                }
            }
        }
    }

    // When the last reader goes, nobody is ahead, and the writers behind come to stand there.
    #[tactic(auto, using(crate::proofs::Lined::taking))]
    pub(crate) fn take_first(&mut self) -> Option<Entry>
        ensures answer { result ≡ first (entries_of self.old) }
        ensures queue { entries_of self.new ≡ rest (entries_of self.old) }
    {
        if let Some(task) = self.ahead.take() {
            return Some(Entry {
                task,
                direction: Direction::Write,
            });
        }
        let task = self.readers.take()?;
        if self.readers.len() == 0 {
            std::mem::swap(&mut self.ahead, &mut self.behind);
        }
        Some(Entry {
            task,
            direction: Direction::Read,
        })
    }

    #[tactic(auto, using(crate::proofs::Lined::length_lined))]
    pub(crate) fn len(&self) -> u32
        ensures { result ≡ length (entries_of self.now) }
    {
        self.ahead.len() + self.readers.len() + self.behind.len()
    }

    // How many wait to read.
    #[tactic(auto, using(crate::proofs::Lined::count_lined))]
    pub(crate) fn readers(&self) -> u32
        ensures { result ≡ reader_count (entries_of self.now) }
    {
        self.readers.len()
    }

    // The entry at a place, counted from the first.
    pub(crate) fn entry_at(&self, mut place: u32) -> Option<Entry>
        ensures { result ≡ entry_at place (entries_of self.now) }
    {
        let strips = [
            (&self.ahead, Direction::Write),
            (&self.readers, Direction::Read),
            (&self.behind, Direction::Write),
        ];
        for (strip, direction) in strips {
            if let Some(task) = strip.get(place) {
                return Some(Entry { task, direction });
            }
            place -= strip.len();
        }
        None
    }
}
