// The three parts of the queue, in their order: the writers ahead of the readers, the readers, the writers behind them.
ghost use Rattle.std.specs.Prelude.{◌≡◌, length};
ghost use Rattle.strips.specs.Tasks.{tasks_of};

mod calls;

use crate::strip::Strip;

#[derive(Drop)]
pub(crate) struct Parts {
    ahead: Strip,
    readers: Strip,
    behind: Strip,
    ghost settled: { (length (tasks_of readers) ≡ 0 → length (tasks_of behind) ≡ 0) },
}
