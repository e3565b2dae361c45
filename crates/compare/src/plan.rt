use crate::dice::Dice;

// How one list of calls is drawn.
#[derive(Clone, Copy)]
pub struct Plan {
    pub seed: u32,
    pub tasks: u32,
    pub spin: u32,
    pub notice_places: usize,
    pub archive_places: usize,
    pub calls: u32,
    // One of so many calls goes to another task than the last one.
    pub wander: u32,
    // One of so many calls of a holding task is a leave.
    pub patience: u32,
    // Before one of so many calls the rings are emptied in part.
    pub idle: u32,
    // One of so many claims is to write.
    pub writers: u32,
}

const TASKS: [u32; 5] = [1, 2, 3, 8, 64];

const SPINS: [u32; 3] = [0, 1, 255];

impl Plan {
    pub(crate) fn drawn(seed: u32) -> Plan {
        let mut dice = Dice::seeded(seed);
        let tasks = TASKS[seed as usize % TASKS.len()];
        let spin = SPINS[seed as usize / TASKS.len() % SPINS.len()];
        let length = if spin > 1 { 2_000 } else { 1_000 };
        Plan {
            seed,
            tasks,
            spin,
            notice_places: dice.of(&[0, 1, 2, 3, 64, 64, 64, 100]),
            archive_places: dice.of(&[0, 1, 2, 3, 4, 5, 8, 66, 66, 66, 66, 66, 66, 100, 100, 100]),
            calls: if tasks > 8 { 5 * length } else { length },
            wander: dice.of(&[1, 2, 8, 64]),
            patience: dice.of(&[1, 4, 64, 600]),
            idle: dice.of(&[1, 1, 2, 8]),
            writers: dice.of(&[1, 2, 4, 16]),
        }
    }
}
