// The rules of the lock: what each call answers and leaves, and the laws of every run.
#![tactic(auto)]

ghost use Rattle.rules.specs.Runs.{MadeLocksAreSafe};

use types::Direction;
use word::LockWord;

// Where a task stands.
#[derive(Clone, Copy, PartialEq, Eq, Debug)]
pub enum Phase {
    Out,
    Claiming(Direction),
    AtQueueLock(Direction),
    Queueing(Direction),
    Queued(Direction),
    Holding(Direction),
    Owing,
    Passing,
}

// A task's phase and the attempts made since its last claim.
#[derive(Clone, Copy)]
pub struct Row {
    pub phase: Phase,
    pub attempts: u16,
}

// Every run of a lock above this kind of word keeps the laws: mutual exclusion, no lost wake-up, bounded overtaking, and phases
// that agree with the run.
pub fn runs_are_safe<W: LockWord>()
    ensures { MadeLocksAreSafe W.LockWord.sizes }
{}
