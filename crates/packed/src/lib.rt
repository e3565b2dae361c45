// The packed word: three marks and one reader count in 32 bits.
#![tactic(auto)]

ghost use Rattle.std.specs.Prelude.{◌≡◌, Bool, cond, ◌/◌, ◌%◌, ◌^◌, ◌<◌, ◌==◌};
ghost use Rattle.packed.specs.Unpacked.{packed_sizes, unpacked};
ghost use Rattle.std.proofs.Common.{arith, refl, rules};
ghost use Rattle.word.proofs.Groups.{tasks_below_le};

use types::Direction;
use word::LockWord;

// On while a writer has the lock, or has left it and owes its passing on.
const W_LOCKED: u32 = 0x8000_0000;
// On while a writer waits.
const W_WAITERS: u32 = 0x4000_0000;
// On while a reader waits.
const R_WAITERS: u32 = 0x2000_0000;
// The reader count.
const COUNT: u32 = 0x1fff_ffff;

#[derive(Clone, Copy)]
pub struct Packed {
    bits: u32,
}

impl Packed {
    pub fn bits(self) -> u32
        ensures { result ≡ self.bits }
    {
        let Packed { bits } = self;
        bits
    }

    // Whether a mark is on.
    fn has(&self, mark: u32) -> bool
        requires { 0 < mark }
        ensures { result ≡ (self.now.bits / mark % 2 == 1) }
    {
        self.bits / mark % 2 == 1
    }

    fn readers(&self) -> u32
        ensures { result ≡ self.now.bits % 2 ^ 29 }
    {
        self.bits & COUNT
    }
}

fn mark_if(on: bool, mark: u32) -> u32
    ensures { result ≡ cond on mark 0 }
{
    if on { mark } else { 0 }
}

impl LockWord for Packed {
    ghost GROUPS = { 1 };

    ghost LIMIT = { 536870911 };

    const GROUPS: u32 = 1;

    const LIMIT: u32 = COUNT;

    ghost sizes = { packed_sizes };

    ghost meaning = { λ w. unpacked w.bits };

    ghost group_count = { refl };

    ghost count_limit = { refl };

    ghost some_groups = { Prim.search rules };

    ghost few_groups = { Prim.search rules };

    ghost one_count_each = { Prim.search rules };

    ghost within_limit = { Prim.search rules };

    ghost ample_limit = { λ g. let few = tasks_below_le packed_sizes.groups g 64 in omega arith };

    fn fresh() -> Packed {
        Packed { bits: 0 }
    }

    fn enter_to_write(&mut self) -> bool {
        if self.bits != 0 {
            return false;
        }
        self.bits = W_LOCKED;
        true
    }

    fn leave_reading(&mut self, group: u32) -> bool {
        if group >= Self::GROUPS || self.readers() == 0 {
            return false;
        }
        self.bits -= 1;
        true
    }

    fn leave_writing(&mut self) -> bool {
        if !self.is_locked() || self.writers_wait() || self.readers_wait() {
            return false;
        }
        self.bits -= W_LOCKED;
        true
    }

    fn mark_waiters(&mut self, direction: Direction) {
        let mark = match direction {
            Direction::Read => R_WAITERS,
            Direction::Write => W_WAITERS,
        };
        if !self.has(mark) {
            self.bits += mark;
        }
    }

    fn pass_to_writer(&mut self, writers_wait: bool, readers_wait: bool) -> bool {
        if self.readers() != 0 {
            return false;
        }
        self.bits = W_LOCKED + mark_if(writers_wait, W_WAITERS) + mark_if(readers_wait, R_WAITERS);
        true
    }

    fn pass_to_readers(&mut self, writers_wait: bool) {
        self.bits = self.readers() + mark_if(writers_wait, W_WAITERS);
    }

    fn admit_reader(&mut self, group: u32) -> bool {
        if group >= Self::GROUPS || self.is_locked() || self.readers() >= Self::LIMIT {
            return false;
        }
        self.bits += 1;
        true
    }

    fn is_locked(&self) -> bool {
        self.has(W_LOCKED)
    }

    fn writers_wait(&self) -> bool {
        self.has(W_WAITERS)
    }

    fn readers_wait(&self) -> bool {
        self.has(R_WAITERS)
    }

    fn count(&self, group: u32) -> u32 {
        if group < Self::GROUPS {
            self.readers()
        } else {
            0
        }
    }
}
