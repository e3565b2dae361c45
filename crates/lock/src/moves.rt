// What moves and leaves do to the fields of a lock. A pass has a file of its own.
ghost use Rattle.std.specs.Prelude.{◌≡◌, true, if◌then◌else◌, Some};
ghost use Rattle.word.specs.Words.{all_zero, leave_reading};
ghost use Rattle.rules.specs.declared.Phase.TheVariants.{Holding};
ghost use Rattle.rules.specs.Locks.{has_queue_lock};
ghost use Rattle.rules.specs.Steps.{plain, group_of, can_enter, granted, in_vain, queued_up, queue_lock_tried, reader_owes, leaving};
ghost use Rattle.lock.specs.Meaning.{lock_of};
ghost use Rattle.lock.specs.Answers.{attempt_answer};

use crate::state::{State, Task};
use queue::WaitQueue;
use rules::{Phase, Row};
use types::{Direction, Outcome};
use word::LockWord;

// The group of a task.
pub(crate) fn group<W: LockWord>(task: u8) -> u32
    ensures { result ≡ group_of W.LockWord.sizes task }
{
    u32::from(task) % W::GROUPS
}

impl<W: LockWord, Q: WaitQueue> State<W, Q> {
    // The task attempts to enter, and holds if the word lets it; Err where it was in vain. Either end tells the attempts made, so
    // that the error is a number and no enum.
    #[inline]
    fn try_enter(&mut self, task: Task, direction: Direction) -> Result<u16, u16>
        ensures answer { result ≡ attempt_answer W.LockWord.sizes task.number direction (lock_of W.LockWord.meaning Q.WaitQueue.entries self.old) }
        ensures lock { let l = lock_of W.LockWord.meaning Q.WaitQueue.entries self.old in lock_of W.LockWord.meaning Q.WaitQueue.entries self.new ≡ (if can_enter W.LockWord.sizes task.number direction l.word then (granted W.LockWord.sizes task.number direction l).lock else l) }
    {
        let attempts = self.rows[task.number as usize].attempts.saturating_add(1);
        let entered = match direction {
            Direction::Read => self.word.enter_to_read(group::<W>(task.number)),
            Direction::Write => self.word.enter_to_write(),
        };
        if !entered {
            return Err(attempts);
        }
        let phase = Phase::Holding(direction);
        self.set_row(task, Row { phase, attempts });
        Ok(attempts)
    }

    // A claiming task attempts to enter.
    #[inline]
    pub(crate) fn attempt(&mut self, task: Task, direction: Direction) -> Outcome
        ensures { let l = lock_of W.LockWord.meaning Q.WaitQueue.entries self.old in plain result (lock_of W.LockWord.meaning Q.WaitQueue.entries self.new) ≡ (if can_enter W.LockWord.sizes task.number direction l.word then granted W.LockWord.sizes task.number direction l else in_vain task.number direction l) }
    {
        match self.try_enter(task, direction) {
            Ok(attempts) => Outcome::Granted(attempts),
            Err(attempts) if attempts <= self.spin as u16 => {
                let phase = Phase::Claiming(direction);
                self.set_row(task, Row { phase, attempts });
                Outcome::Again(attempts)
            }
            Err(attempts) => {
                let phase = Phase::AtQueueLock(direction);
                self.set_row(task, Row { phase, attempts });
                Outcome::ToQueueLock(attempts)
            }
        }
    }

    // A queueing task attempts once more; in vain, it joins the queue. Either way it lets the queue lock go.
    pub(crate) fn queue_up(&mut self, task: Task, direction: Direction) -> Outcome
        ensures { let l = lock_of W.LockWord.meaning Q.WaitQueue.entries self.old in plain result (lock_of W.LockWord.meaning Q.WaitQueue.entries self.new) ≡ (if can_enter W.LockWord.sizes task.number direction l.word then granted W.LockWord.sizes task.number direction l else queued_up task.number direction l) }
    {
        match self.try_enter(task, direction) {
            Ok(attempts) => Outcome::Granted(attempts),
            Err(attempts) => {
                let _ = self.queue.join(task.number as u32, direction);
                self.word.mark_waiters(direction);
                let phase = Phase::Queued(direction);
                self.set_row(task, Row { phase, attempts });
                Outcome::Queued(attempts)
            }
        }
    }

    // A task gets the queue lock and goes on in the next phase, unless another has it.
    #[tactic(auto, using(crate::proofs::Keys::none_locked, crate::proofs::Keys::one_locked, crate::proofs::Keys::keyed_taken, crate::proofs::Keys::rows_set))]
    pub(crate) fn lock_queue(&mut self, task: Task, next: Phase) -> Outcome
        requires { has_queue_lock next ≡ true }
        ensures { plain result (lock_of W.LockWord.meaning Q.WaitQueue.entries self.new) ≡ queue_lock_tried task.number next (lock_of W.LockWord.meaning Q.WaitQueue.entries self.old) }
    {
        if self.queue_locked {
            return Outcome::Busy;
        }
        self.queue_locked = true;
        self.rows[task.number as usize].phase = next;
        Outcome::HasQueueLock
    }

    // A holding task leaves the word: out, or owing where it must pass the lock on. A reader lowers its count, a writer goes
    // only where nobody waits.
    pub(crate) fn leave(&mut self, task: Task, direction: Direction) -> Outcome
        ensures { leaving W.LockWord.sizes task.number (lock_of W.LockWord.meaning Q.WaitQueue.entries self.old) (Holding direction) ≡ Some (plain result (lock_of W.LockWord.meaning Q.WaitQueue.entries self.new)) }
    {
        let owes = match direction {
            Direction::Read => leave_group(&mut self.word, task.number),
            Direction::Write => !self.word.leave_writing(),
        };
        if owes {
            self.set_phase(task, Phase::Owing);
            return Outcome::Owes;
        }
        self.set_phase(task, Phase::Out);
        Outcome::Out
    }
}

// A reader leaves its group: whether the last reader leaves somebody waiting behind.
fn leave_group<W: LockWord>(word: &mut W, task: u8) -> bool
    ensures answer { result ≡ reader_owes (W.LockWord.meaning word.new) }
    ensures word { W.LockWord.meaning word.new ≡ leave_reading W.LockWord.sizes (group_of W.LockWord.sizes task) (W.LockWord.meaning word.old) }
{
    let _ = word.leave_reading(group::<W>(task));
    (word.writers_wait() || word.readers_wait()) && nobody_reads(word)
}

// All counts are 0.
fn nobody_reads<W: LockWord>(word: &W) -> bool
    ensures { result ≡ all_zero (W.LockWord.meaning word.now).counts }
{
    (0..W::GROUPS).all(|group| word.count(group) == 0)
}
