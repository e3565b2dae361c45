// The fields of a lock.
ghost use Rattle.std.specs.Prelude.{◌≡◌, ◌<◌, ◌≤◌, length};
ghost use Rattle.lock.specs.Keys.{Keyed};

use rules::Row;

// The rows are a fixed array, since a lock never allocates. No task has a row of its own before the lock is made: `tasks` is 0
// then. `queue_locked` tells whether some task has the queue lock, so that no call looks at all rows.
#[derive(Drop)]
pub(crate) struct State<W, Q> {
    pub(crate) tasks: u8,
    pub(crate) spin: u8,
    pub(crate) rows: [Row; 64],
    pub(crate) queue_locked: bool,
    pub(crate) word: W,
    pub(crate) queue: Q,
    ghost full: { length rows ≡ 64 },
    ghost few: { tasks ≤ 64 },
    ghost keyed: { Keyed rows queue_locked },
}

// The number of a task: the place of its row.
#[derive(Clone, Copy)]
pub(crate) struct Task {
    pub(crate) number: u8,
    ghost in_range: { number < 64 },
}
