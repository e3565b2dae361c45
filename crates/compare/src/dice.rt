// A linear congruential generator: the same numbers in every run.
#[derive(Clone, Copy)]
pub struct Dice {
    state: u64,
}

impl Dice {
    pub(crate) fn seeded(seed: u32) -> Dice {
        Dice {
            state: u64::from(seed),
        }
    }

    // The upper half of the state: its lower bits repeat soon.
    pub(crate) fn roll(&mut self) -> u32 {
        self.state = self
            .state
            .wrapping_mul(6_364_136_223_846_793_005)
            .wrapping_add(1_442_695_040_888_963_407);
        (self.state >> 32) as u32
    }

    // A number below n, or 0 where there is none.
    pub(crate) fn below(&mut self, n: u32) -> u32 {
        self.roll().checked_rem(n).unwrap_or(0)
    }

    pub(crate) fn one_in(&mut self, n: u32) -> bool {
        self.below(n) == 0
    }

    // A place of a list of this length, or 0 where there is none.
    pub(crate) fn index(&mut self, len: usize) -> usize {
        (self.roll() as usize).checked_rem(len).unwrap_or(0)
    }

    // One of a list, or the default where there is none.
    pub(crate) fn of<T: Copy + Default>(&mut self, list: &[T]) -> T {
        let place = self.index(list.len());
        list.get(place).copied().unwrap_or_default()
    }
}
