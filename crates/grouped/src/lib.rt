// The grouped word: three marks beside eight reader counters, so that readers of different groups touch different counters.
#![tactic(auto)]

ghost use Rattle.std.specs.Prelude.{◌≡◌, ℕ, ◌≤◌, length, slice_index};
ghost use Rattle.word.specs.Words.{all_zero};
ghost use Rattle.grouped.specs.Groups.{grouped_sizes, grouped_word};
ghost use Rattle.std.proofs.Common.{arith, refl, rules};
ghost use Rattle.word.proofs.Groups.{tasks_below_le};

use types::Direction;
use word::LockWord;

#[derive(Clone, Copy)]
struct Marks {
    locked: bool,
    writers_wait: bool,
    readers_wait: bool,
}

const OFF: Marks = Marks {
    locked: false,
    writers_wait: false,
    readers_wait: false,
};

const LOCKED: Marks = Marks {
    locked: true,
    writers_wait: false,
    readers_wait: false,
};

#[derive(Clone, Copy)]
pub struct Grouped {
    marks: Marks,
    counts: [u16; 8],
    ghost full: { length counts ≡ 8 },
    ghost small: { (g : ℕ) → slice_index counts g ≤ 65535 },
}

fn all_zero(counts: &[u16]) -> bool
    ensures { result ≡ all_zero counts.now }
{
    counts.iter().all(|n| *n == 0)
}

impl LockWord for Grouped {
    ghost GROUPS = { 8 };

    ghost LIMIT = { 65535 };

    const GROUPS: u32 = 8;

    const LIMIT: u32 = 65_535;

    ghost sizes = { grouped_sizes };

    ghost meaning = { λ w. grouped_word w.marks.locked w.marks.writers_wait w.marks.readers_wait w.counts };

    ghost group_count = { refl };

    ghost count_limit = { refl };

    ghost some_groups = { Prim.search rules };

    ghost few_groups = { Prim.search rules };

    ghost one_count_each = { Prim.search rules };

    ghost within_limit = { Prim.search rules };

    ghost ample_limit = { λ g. let few = tasks_below_le grouped_sizes.groups g 64 in omega arith };

    fn fresh() -> Grouped {
        Grouped {
            marks: OFF,
            counts: [0; 8],
        }
    }

    fn enter_to_write(&mut self) -> bool {
        if self.marks.locked || self.marks.writers_wait || self.marks.readers_wait {
            return false;
        }
        if !all_zero(&self.counts) {
            return false;
        }
        self.marks = LOCKED;
        true
    }

    fn leave_reading(&mut self, group: u32) -> bool {
        if group >= Self::GROUPS {
            return false;
        }
        let n = self.counts[group as usize];
        if n == 0 {
            return false;
        }
        self.counts[group as usize] = n - 1;
        true
    }

    fn leave_writing(&mut self) -> bool {
        if !self.marks.locked || self.marks.writers_wait || self.marks.readers_wait {
            return false;
        }
        self.marks = OFF;
        true
    }

    fn mark_waiters(&mut self, direction: Direction) {
        match direction {
            Direction::Read => self.marks.readers_wait = true,
            Direction::Write => self.marks.writers_wait = true,
        }
    }

    fn pass_to_writer(&mut self, writers_wait: bool, readers_wait: bool) -> bool {
        if !all_zero(&self.counts) {
            return false;
        }
        self.marks = Marks {
            locked: true,
            writers_wait,
            readers_wait,
        };
        true
    }

    fn pass_to_readers(&mut self, writers_wait: bool) {
        self.marks = Marks {
            locked: false,
            writers_wait,
            readers_wait: false,
        };
    }

    fn admit_reader(&mut self, group: u32) -> bool {
        if group >= Self::GROUPS || self.marks.locked {
            return false;
        }
        let n = self.counts[group as usize];
        if u32::from(n) >= Self::LIMIT {
            return false;
        }
        self.counts[group as usize] = n + 1;
        true
    }

    fn is_locked(&self) -> bool {
        self.marks.locked
    }

    fn writers_wait(&self) -> bool {
        self.marks.writers_wait
    }

    fn readers_wait(&self) -> bool {
        self.marks.readers_wait
    }

    fn count(&self, group: u32) -> u32 {
        if group < Self::GROUPS {
            self.counts[group as usize] as u32
        } else {
            0
        }
    }
}
