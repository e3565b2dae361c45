// The calls of a lock.
ghost use Rattle.std.specs.Prelude.{◌≡◌, ◌<◌, Ok, Err};
ghost use Rattle.types.specs.declared.Refusal.{Refusal};
ghost use Rattle.types.specs.declared.Verb.TheVariants.{Move, Leave};
ghost use Rattle.ring.specs.HeldOf.{held_of, lent_name};
ghost use Rattle.rules.specs.Locks.{blank_lock, phase_of};
ghost use Rattle.rules.specs.Runs.{RunsAreSafe};
ghost use Rattle.lock.specs.Meaning.{lock_of};
ghost use Rattle.lock.specs.Answers.{claim_verb, archive_room, ring_room, Called, Made};
ghost use Rattle.ring.specs.Held.{put_all};
ghost use Rattle.rules.specs.Steps.{step};
ghost use Rattle.rules.specs.Records.{notices_of};
ghost use Rattle.rules.specs.declared.Phase.TheVariants.{Passing};

use crate::Lock;
use crate::archiving::{room_for, write_call};
use crate::state::State;
use archive::bits;
use queue::WaitQueue;
use ring::Ring;
use rules::{Phase, Row, runs_are_safe};
use types::{ArchiveWord, Direction, Entry, Outcome, Refusal, Verb};
use word::LockWord;

// No From: only in a claim does a direction make a verb.
fn claim_verb(direction: Direction) -> Verb
    ensures { result ≡ claim_verb direction }
{
    match direction {
        Direction::Read => Verb::ClaimRead,
        Direction::Write => Verb::ClaimWrite,
    }
}

impl<W: LockWord + Drop, Q: WaitQueue + Drop> Lock<W, Q> {
    // A lock that is not made yet.
    pub fn blank() -> Lock<W, Q>
        ensures { lock_of W.LockWord.meaning Q.WaitQueue.entries result.state ≡ blank_lock W.LockWord.sizes }
    {
        Lock {
            state: State::new(0, 0),
        }
    }

    // A task that is out claims the lock in a direction.
    pub fn claim(
        &mut self,
        task: u32,
        direction: Direction,
        archive: &mut Ring<u32>,
    ) -> Result<Outcome, Refusal>
        ensures lent { lent_name archive.new ≡ lent_name archive.old }
        ensures called { Called W.LockWord.sizes (claim_verb direction) task (archive_room (held_of archive.old)) (lock_of W.LockWord.meaning Q.WaitQueue.entries self.old.state) (held_of archive.old) result (lock_of W.LockWord.meaning Q.WaitQueue.entries self.new.state) (held_of archive.new) }
        ensures same { (e : Refusal) → result ≡ Err e → (self.new ≡ self.old) × (archive.new ≡ archive.old) }
    {
        let task = self.state.task(task)?;
        let Phase::Out = self.state.phase(task) else {
            return Err(Refusal::NotOut);
        };
        room_for(archive, 2)?;
        let phase = Phase::Claiming(direction);
        self.state.set_row(task, Row { phase, attempts: 0 });
        let verb = claim_verb(direction);
        write_call(archive, verb, task.number, Outcome::Claimed);
        Ok(Outcome::Claimed)
    }

    // A task on its way to the lock, or one that owes its passing on, moves one step.
    pub fn advance(
        &mut self,
        task: u32,
        notices: &mut Ring<Entry>,
        archive: &mut Ring<u32>,
    ) -> Result<Outcome, Refusal>
        ensures notices_lent { lent_name notices.new ≡ lent_name notices.old }
        ensures lent { lent_name archive.new ≡ lent_name archive.old }
        ensures called { Called W.LockWord.sizes Move task (ring_room (held_of notices.old) (held_of archive.old)) (lock_of W.LockWord.meaning Q.WaitQueue.entries self.old.state) (held_of archive.old) result (lock_of W.LockWord.meaning Q.WaitQueue.entries self.new.state) (held_of archive.new) }
        ensures notices { held_of notices.new ≡ put_all (notices_of (step W.LockWord.sizes Move task (ring_room (held_of notices.old) (held_of archive.old)) (lock_of W.LockWord.meaning Q.WaitQueue.entries self.old.state))) (held_of notices.old) }
        ensures same { (e : Refusal) → result ≡ Err e → (self.new ≡ self.old) × (notices.new ≡ notices.old) × (archive.new ≡ archive.old) }
    {
        let state = &mut self.state;
        let task = state.task(task)?;
        let outcome = match state.phase(task) {
            Phase::Out | Phase::Queued(_) | Phase::Holding(_) => return Err(Refusal::CannotMove),
            Phase::Passing => return state.try_pass(task, notices, archive),
            _ if archive.free() < 2 => return Err(Refusal::ArchiveFull),
            Phase::Claiming(direction) => state.attempt(task, direction),
            Phase::AtQueueLock(direction) => state.lock_queue(task, Phase::Queueing(direction)),
            Phase::Queueing(direction) => state.queue_up(task, direction),
            Phase::Owing => state.lock_queue(task, Phase::Passing),
        };
        write_call(archive, Verb::Move, task.number, outcome);
        Ok(outcome)
    }

    // A task that holds the lock leaves it.
    pub fn leave(&mut self, task: u32, archive: &mut Ring<u32>) -> Result<Outcome, Refusal>
        ensures lent { lent_name archive.new ≡ lent_name archive.old }
        ensures called { Called W.LockWord.sizes Leave task (archive_room (held_of archive.old)) (lock_of W.LockWord.meaning Q.WaitQueue.entries self.old.state) (held_of archive.old) result (lock_of W.LockWord.meaning Q.WaitQueue.entries self.new.state) (held_of archive.new) }
        ensures same { (e : Refusal) → result ≡ Err e → (self.new ≡ self.old) × (archive.new ≡ archive.old) }
    {
        let task = self.state.task(task)?;
        let Phase::Holding(direction) = self.state.phase(task) else {
            return Err(Refusal::HoldsNothing);
        };
        room_for(archive, 2)?;
        let outcome = self.state.leave(task, direction);
        write_call(archive, Verb::Leave, task.number, outcome);
        Ok(outcome)
    }

    // Makes a blank lock, with all tasks out and a spin allowance. Every run from then on keeps the laws.
    pub fn make(&mut self, tasks: u32, spin: u32, archive: &mut Ring<u32>) -> Result<(), Refusal>
        ensures lent { lent_name archive.new ≡ lent_name archive.old }
        ensures made { Made W.LockWord.sizes tasks spin (lock_of W.LockWord.meaning Q.WaitQueue.entries self.old.state) (held_of archive.old) result (lock_of W.LockWord.meaning Q.WaitQueue.entries self.new.state) (held_of archive.new) }
        ensures runs { result ≡ Ok tt → RunsAreSafe W.LockWord.sizes (lock_of W.LockWord.meaning Q.WaitQueue.entries self.new.state) }
        ensures same { (e : Refusal) → result ≡ Err e → (self.new ≡ self.old) × (archive.new ≡ archive.old) }
    {
        runs_are_safe::<W>();
        if self.state.tasks != 0 {
            return Err(Refusal::AlreadyMade);
        }
        if tasks == 0 || tasks > 64 {
            return Err(Refusal::TasksOutOfRange);
        }
        if spin > 255 {
            return Err(Refusal::SpinOutOfRange);
        }
        room_for(archive, 1)?;
        let tasks = tasks as u8;
        let spin = spin as u8;
        self.state = State::new(tasks, spin);
        let _ = archive.put(bits(ArchiveWord::Making { spin, tasks }));
        Ok(())
    }
}
