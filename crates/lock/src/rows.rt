// The rows of the tasks, and who has the queue lock.
ghost use Rattle.std.specs.Prelude.{◌≡◌, ◌≤◌, false};
ghost use Rattle.rules.specs.Locks.{has_queue_lock, phase_of, with_row, with_phase, fresh_lock};
ghost use Rattle.lock.specs.Meaning.{lock_of};
ghost use Rattle.lock.specs.Answers.{number_of, task_answer};

use crate::state::{State, Task};
use queue::WaitQueue;
use rules::{Phase, Row};
use types::Refusal;
use word::LockWord;

const OUT: Row = Row {
    phase: Phase::Out,
    attempts: 0,
};

// Only a queueing or passing task has the queue lock.
fn has_queue_lock(phase: Phase) -> bool
    ensures { result ≡ has_queue_lock phase }
{
    matches!(phase, Phase::Queueing(_) | Phase::Passing)
}

impl<W: LockWord, Q: WaitQueue> State<W, Q> {
    // All tasks out, a fresh word and an empty queue.
    pub(crate) fn new(tasks: u8, spin: u8) -> State<W, Q>
        requires { tasks ≤ 64 }
        ensures { lock_of W.LockWord.meaning Q.WaitQueue.entries result ≡ fresh_lock W.LockWord.sizes tasks spin }
    {
        State {
            tasks,
            spin,
            rows: [OUT; 64],
            queue_locked: false,
            word: W::fresh(),
            queue: Q::fresh(),
        }
    }

    // The task of that number, or the refusal of a call that names none.
    pub(crate) fn task(&self, number: u32) -> Result<Task, Refusal>
        ensures { number_of result ≡ task_answer number (lock_of W.LockWord.meaning Q.WaitQueue.entries self.now) }
    {
        if self.tasks == 0 {
            return Err(Refusal::NotMade);
        }
        if number >= self.tasks as u32 {
            return Err(Refusal::NoSuchTask);
        }
        Ok(Task {
            number: number as u8,
        })
    }

    pub(crate) fn phase(&self, task: Task) -> Phase
        ensures { result ≡ phase_of task.number (lock_of W.LockWord.meaning Q.WaitQueue.entries self.now) }
    {
        self.rows[task.number as usize].phase
    }

    // The task has another row, of a phase without the queue lock; it lets the queue lock go if it had it.
    #[tactic(auto, using(crate::proofs::Keys::keyed_without, crate::proofs::Keys::rows_set))]
    pub(crate) fn set_row(&mut self, task: Task, row: Row)
        requires { has_queue_lock row.phase ≡ false }
        ensures { lock_of W.LockWord.meaning Q.WaitQueue.entries self.new ≡ with_row task.number row (lock_of W.LockWord.meaning Q.WaitQueue.entries self.old) }
    {
        let had = has_queue_lock(self.phase(task));
        self.queue_locked &= !had;
        self.rows[task.number as usize] = row;
    }

    // The task is in another phase, without the queue lock; it lets the queue lock go if it had it.
    pub(crate) fn set_phase(&mut self, task: Task, phase: Phase)
        requires { has_queue_lock phase ≡ false }
        ensures { lock_of W.LockWord.meaning Q.WaitQueue.entries self.new ≡ with_phase task.number phase (lock_of W.LockWord.meaning Q.WaitQueue.entries self.old) }
    {
        let attempts = self.rows[task.number as usize].attempts;
        self.set_row(task, Row { phase, attempts });
    }
}
