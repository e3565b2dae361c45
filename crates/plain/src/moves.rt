use crate::answers::{Outcome, Refusal};
use crate::lock::PlainLock;
use crate::queue::{Waiter, Waiters, join, waits};
use crate::rows::{Direction, Row, Step, Verb};

// What a task does on an accepted call.
#[derive(Clone, Copy)]
pub(crate) enum Act {
    Claim(Direction),
    TryToEnter(Direction),
    // The step at which the task then has the queue lock.
    TakeQueueLock(Step),
    EnterOrQueue(Direction),
    Pass,
    Leave(Direction),
}

impl Act {
    pub(crate) fn of(verb: Verb, step: Step) -> Result<Act, Refusal> {
        match (verb, step) {
            (Verb::ClaimToRead, Step::Out) => Ok(Act::Claim(Direction::Read)),
            (Verb::ClaimToWrite, Step::Out) => Ok(Act::Claim(Direction::Write)),
            (Verb::ClaimToRead | Verb::ClaimToWrite, _) => Err(Refusal::NotOut),
            (Verb::Move, Step::Claiming(direction)) => Ok(Act::TryToEnter(direction)),
            (Verb::Move, Step::AtQueueLock(direction)) => Ok(Act::TakeQueueLock(Step::Queueing(
                direction,
            ))),
            (Verb::Move, Step::Owing) => Ok(Act::TakeQueueLock(Step::Passing)),
            (Verb::Move, Step::Queueing(direction)) => Ok(Act::EnterOrQueue(direction)),
            (Verb::Move, Step::Passing) => Ok(Act::Pass),
            (Verb::Move, Step::Out | Step::Queued(_) | Step::Holding(_)) => Err(
                Refusal::NothingToDo,
            ),
            (Verb::Leave, Step::Holding(direction)) => Ok(Act::Leave(direction)),
            (Verb::Leave, _) => Err(Refusal::HoldsNothing),
        }
    }
}

impl PlainLock {
    pub(crate) fn perform(&mut self, act: Act, task: u8, taken: &Waiters) -> Outcome {
        match act {
            Act::Claim(direction) => self.claim(task, direction),
            Act::TryToEnter(direction) => self.try_to_enter(task, direction),
            Act::TakeQueueLock(step) => self.take_queue_lock(task, step),
            Act::EnterOrQueue(direction) => self.enter_or_queue(task, direction),
            Act::Pass => self.pass(task, taken),
            Act::Leave(direction) => self.leave(task, direction),
        }
    }

    fn go(&mut self, task: u8, step: Step) {
        if let Some(row) = self.rows.get_mut(usize::from(task)) {
            row.step = step;
        }
    }

    fn claim(&mut self, task: u8, direction: Direction) -> Outcome {
        if let Some(row) = self.rows.get_mut(usize::from(task)) {
            *row = Row {
                step: Step::Claiming(direction),
                attempts: 0,
            };
        }
        Outcome::Claimed
    }

    fn leave(&mut self, task: u8, direction: Direction) -> Outcome {
        let owes = match direction {
            Direction::Write => !self.word.leave_writing(),
            Direction::Read => {
                self.word.leave_reading(task);
                self.word.nobody_reads() && (self.word.writers_wait || self.word.readers_wait)
            }
        };
        if owes {
            self.go(task, Step::Owing);
            Outcome::Owes
        } else {
            self.go(task, Step::Out);
            Outcome::Out
        }
    }

    // The attempts made, with one more than before.
    fn count_attempt(&mut self, task: u8) -> u16 {
        match self.rows.get_mut(usize::from(task)) {
            Some(row) => {
                row.attempts = row.attempts.saturating_add(1);
                row.attempts
            }
            None => 0,
        }
    }

    fn try_to_enter(&mut self, task: u8, direction: Direction) -> Outcome {
        let attempts = self.count_attempt(task);
        if self.word.enter(task, direction) {
            self.go(task, Step::Holding(direction));
            Outcome::Granted(attempts)
        } else if attempts <= u16::from(self.spin) {
            Outcome::Again(attempts)
        } else {
            self.go(task, Step::AtQueueLock(direction));
            Outcome::ToQueueLock(attempts)
        }
    }

    fn take_queue_lock(&mut self, task: u8, step: Step) -> Outcome {
        let has_queue_lock = |row: &Row| matches!(row.step, Step::Queueing(_) | Step::Passing);
        if self.rows.iter().any(has_queue_lock) {
            return Outcome::Busy;
        }
        self.go(task, step);
        Outcome::HasQueueLock
    }

    fn enter_or_queue(&mut self, task: u8, direction: Direction) -> Outcome {
        let attempts = self.count_attempt(task);
        if self.word.enter(task, direction) {
            self.go(task, Step::Holding(direction));
            return Outcome::Granted(attempts);
        }
        join(&mut self.queue, Waiter { task, direction });
        self.word.mark(direction);
        self.go(task, Step::Queued(direction));
        Outcome::Queued(attempts)
    }

    fn pass(&mut self, task: u8, taken: &Waiters) -> Outcome {
        self.word.locked = false;
        for waiter in taken {
            let _ = self.queue.take_first();
            self.hand_to(*waiter);
        }
        self.word.writers_wait = waits(&self.queue, Direction::Write);
        self.word.readers_wait = waits(&self.queue, Direction::Read);
        self.go(task, Step::Out);
        Outcome::Passed(u16::try_from(taken.len()).unwrap_or(u16::MAX))
    }

    fn hand_to(&mut self, waiter: Waiter) {
        match waiter.direction {
            Direction::Write => self.word.locked = true,
            Direction::Read => {
                let _ = self.word.admit(waiter.task);
            }
        }
        self.go(waiter.task, Step::Holding(waiter.direction));
    }
}
