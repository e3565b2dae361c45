// The lock word: three marks and one reader count for each group of tasks. A kind of word is proved against this contract
// once, and no code above it depends on how the kind is laid out.
#![tactic(auto)]

ghost use Rattle.std.specs.Prelude.{◌≡◌, ℕ, ◌≤◌, length};
ghost use Rattle.word.specs.Words.{Sizes, Word, count, tasks_in_group, fresh_word, can_enter_to_read, enter_to_read, can_enter_to_write, enter_to_write, can_leave_reading, leave_reading, can_leave_writing, leave_writing, mark_waiters, can_pass_to_writer, pass_to_writer, pass_to_readers, can_admit_reader, admit_reader};

use types::Direction;

pub trait LockWord: Sized {
    // The number of groups, and the greatest count of any group. `group_count` and `count_limit` answer them.
    ghost GROUPS: { ℕ };

    ghost LIMIT: { ℕ };

    const GROUPS: u32;

    const LIMIT: u32;

    ghost sizes: { Sizes };

    ghost meaning: { Self → Word };

    ghost group_count: { sizes.groups ≡ GROUPS };

    ghost count_limit: { sizes.limit ≡ LIMIT };

    fn group_count() -> u32
        ensures { result ≡ sizes.groups }
    {
        Self::GROUPS
    }

    fn count_limit() -> u32
        ensures { result ≡ sizes.limit }
    {
        Self::LIMIT
    }

    fn fresh() -> Self
        ensures { meaning result ≡ fresh_word sizes };

    // A reader that comes is admitted as one that waits, unless a writer waits.
    fn enter_to_read(&mut self, group: u32) -> bool
        ensures answer { result ≡ can_enter_to_read sizes group (meaning self.old) }
        ensures word { meaning self.new ≡ enter_to_read sizes group (meaning self.old) }
    {
        !self.writers_wait() && self.admit_reader(group)
    }

    fn enter_to_write(&mut self) -> bool
        ensures answer { result ≡ can_enter_to_write (meaning self.old) }
        ensures word { meaning self.new ≡ enter_to_write (meaning self.old) };

    fn leave_reading(&mut self, group: u32) -> bool
        ensures answer { result ≡ can_leave_reading sizes group (meaning self.old) }
        ensures word { meaning self.new ≡ leave_reading sizes group (meaning self.old) };

    fn leave_writing(&mut self) -> bool
        ensures answer { result ≡ can_leave_writing (meaning self.old) }
        ensures word { meaning self.new ≡ leave_writing (meaning self.old) };

    fn mark_waiters(&mut self, direction: Direction)
        ensures word { meaning self.new ≡ mark_waiters direction (meaning self.old) };

    fn pass_to_writer(&mut self, writers_wait: bool, readers_wait: bool) -> bool
        ensures answer { result ≡ can_pass_to_writer (meaning self.old) }
        ensures word { meaning self.new ≡ pass_to_writer writers_wait readers_wait (meaning self.old) };

    fn pass_to_readers(&mut self, writers_wait: bool)
        ensures word { meaning self.new ≡ pass_to_readers writers_wait (meaning self.old) };

    fn admit_reader(&mut self, group: u32) -> bool
        ensures answer { result ≡ can_admit_reader sizes group (meaning self.old) }
        ensures word { meaning self.new ≡ admit_reader sizes group (meaning self.old) };

    fn is_locked(&self) -> bool
        ensures { result ≡ (meaning self.now).locked };

    fn writers_wait(&self) -> bool
        ensures { result ≡ (meaning self.now).writers_wait };

    fn readers_wait(&self) -> bool
        ensures { result ≡ (meaning self.now).readers_wait };

    fn count(&self, group: u32) -> u32
        ensures { result ≡ count group (meaning self.now) };

    ghost some_groups: { 1 ≤ sizes.groups };

    ghost few_groups: { sizes.groups ≤ 64 };

    ghost one_count_each: { (w : Self) → length (meaning w).counts ≡ sizes.groups };

    ghost within_limit: { (w : Self) (g : ℕ) → count g (meaning w) ≤ sizes.limit };

    ghost ample_limit: { (g : ℕ) → tasks_in_group sizes.groups g ≤ sizes.limit };
}
