// The wait queue: a list of entries, each a task and its direction. A kind of queue is proved against this contract once.
#![tactic(auto)]

ghost use Rattle.std.specs.Prelude.{◌≡◌, true, List, [], length};
ghost use Rattle.types.specs.declared.Entry.{Entry};
ghost use Rattle.queue.specs.Queues.{tasks_in_range, no_task_twice, readers_are_neighbours, reader_count, can_join, join, first, rest, entry_at};

use types::{Direction, Entry};

pub trait WaitQueue: Sized {
    ghost entries: { Self → List Entry };

    fn fresh() -> Self
        ensures { entries result ≡ [] };

    // A writer joins at the end, a reader directly behind the last reader. No task joins twice, and none above 63.
    fn join(&mut self, task: u32, direction: Direction) -> bool
        ensures answer { result ≡ can_join task (entries self.old) }
        ensures queue { entries self.new ≡ join task direction (entries self.old) };

    fn first(&self) -> Option<Entry>
        ensures { result ≡ first (entries self.now) };

    fn take_first(&mut self) -> Option<Entry>
        ensures answer { result ≡ first (entries self.old) }
        ensures queue { entries self.new ≡ rest (entries self.old) };

    fn len(&self) -> u32
        ensures { result ≡ length (entries self.now) };

    // How many wait to read.
    fn readers(&self) -> u32
        ensures { result ≡ reader_count (entries self.now) };

    fn entry_at(&self, place: u32) -> Option<Entry>
        ensures { result ≡ entry_at place (entries self.now) };

    ghost in_range: { (q : Self) → tasks_in_range (entries q) ≡ true };

    ghost none_twice: { (q : Self) → no_task_twice (entries q) ≡ true };

    ghost neighbours: { (q : Self) → readers_are_neighbours (entries q) ≡ true };
}
