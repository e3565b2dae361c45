// The lock is handed over to the tasks at the front of the queue. The two rings are two parameters, as in the public calls: a
// struct of both would be made anew in each call.
ghost use Rattle.std.specs.Prelude.{◌≡◌, ◌<◌, length, map, Some, Err};
ghost use Rattle.types.specs.declared.Refusal.{Refusal};
ghost use Rattle.types.specs.declared.Verb.TheVariants.{Move};
ghost use Rattle.ring.specs.Held.{put, put_all};
ghost use Rattle.ring.specs.HeldOf.{held_of, lent_name};
ghost use Rattle.queue.specs.Queues.{first, rest};
ghost use Rattle.rules.specs.declared.Phase.TheVariants.{Holding, Passing};
ghost use Rattle.rules.specs.Locks.{phase_of, with_phase, with_queue};
ghost use Rattle.rules.specs.Steps.{front_readers, passed, step};
ghost use Rattle.rules.specs.Records.{notice_word, notices_of};
ghost use Rattle.lock.specs.Meaning.{lock_of};
ghost use Rattle.lock.specs.Answers.{ring_room, Called};
ghost use Rattle.lock.specs.Taken.{taken_by, readers_taken};

use crate::archiving::{room_for, write_call, write_notice};
use crate::moves::group;
use crate::state::{State, Task};
use crate::waiting::{front, waits};
use queue::WaitQueue;
use ring::Ring;
use rules::Phase;
use types::{Direction, Entry, Outcome, Refusal, Verb};
use word::LockWord;

impl<W: LockWord, Q: WaitQueue> State<W, Q> {
    // How many tasks a pass takes: one writer, or all readers, which are at the front then.
    pub(crate) fn taken_count(&self) -> u32
        ensures { result ≡ length (taken_by (Q.WaitQueue.entries self.now.queue)) }
    {
        match front(&self.queue, Direction::Write) {
            Some(_) => 1,
            None => self.queue.readers(),
        }
    }

    // The task at the front leaves the queue and holds the lock, with its notice and its word.
    fn hand_over(&mut self, entry: Entry, notices: &mut Ring<Entry>, archive: &mut Ring<u32>)
        requires { first (Q.WaitQueue.entries self.old.queue) ≡ Some entry }
        ensures notices_lent { lent_name notices.new ≡ lent_name notices.old }
        ensures archive_lent { lent_name archive.new ≡ lent_name archive.old }
        ensures lock { let l = lock_of W.LockWord.meaning Q.WaitQueue.entries self.old in lock_of W.LockWord.meaning Q.WaitQueue.entries self.new ≡ with_phase entry.task (Holding entry.direction) (with_queue (rest l.queue) l) }
        ensures notices { held_of notices.new ≡ put entry (held_of notices.old) }
        ensures archive { held_of archive.new ≡ put (notice_word entry) (held_of archive.old) }
    {
        let task = Task { number: entry.task };
        let _ = self.queue.take_first();
        self.set_phase(task, Phase::Holding(entry.direction));
        write_notice(notices, archive, entry);
    }

    // All readers at the front are admitted and hold the lock.
    fn take_readers(&mut self, notices: &mut Ring<Entry>, archive: &mut Ring<u32>)
        ensures notices_lent { lent_name notices.new ≡ lent_name notices.old }
        ensures archive_lent { lent_name archive.new ≡ lent_name archive.old }
        ensures lock { lock_of W.LockWord.meaning Q.WaitQueue.entries self.new ≡ readers_taken W.LockWord.sizes (lock_of W.LockWord.meaning Q.WaitQueue.entries self.old) }
        ensures notices { held_of notices.new ≡ put_all (front_readers (Q.WaitQueue.entries self.old.queue)) (held_of notices.old) }
        ensures archive { held_of archive.new ≡ put_all (map notice_word (front_readers (Q.WaitQueue.entries self.old.queue))) (held_of archive.old) }
    {
        while let Some(reader) = front(&self.queue, Direction::Read) {
            let _ = self.word.admit_reader(group::<W>(reader.task));
            self.hand_over(reader, notices, archive);
        }
    }

    // The passing task is out: a writer at the front is taken alone, readers at the front are all taken.
    #[tactic(auto, using(crate::proofs::Fronts::writers_behind))]
    pub(crate) fn pass(&mut self, task: Task, notices: &mut Ring<Entry>, archive: &mut Ring<u32>)
        ensures notices_lent { lent_name notices.new ≡ lent_name notices.old }
        ensures archive_lent { lent_name archive.new ≡ lent_name archive.old }
        ensures lock { let l = lock_of W.LockWord.meaning Q.WaitQueue.entries self.old in lock_of W.LockWord.meaning Q.WaitQueue.entries self.new ≡ (passed W.LockWord.sizes task.number l l.queue).lock }
        ensures notices { let l = lock_of W.LockWord.meaning Q.WaitQueue.entries self.old in held_of notices.new ≡ put_all (passed W.LockWord.sizes task.number l l.queue).taken (held_of notices.old) }
        ensures archive { let l = lock_of W.LockWord.meaning Q.WaitQueue.entries self.old in held_of archive.new ≡ put_all (map notice_word (passed W.LockWord.sizes task.number l l.queue).taken) (held_of archive.old) }
    {
        self.set_phase(task, Phase::Out);
        match front(&self.queue, Direction::Write) {
            Some(writer) => {
                self.hand_over(writer, notices, archive);
                let writers = waits(&self.queue, Direction::Write);
                let readers = waits(&self.queue, Direction::Read);
                let _ = self.word.pass_to_writer(writers, readers);
            }
            None => {
                let writers = waits(&self.queue, Direction::Write);
                self.word.pass_to_readers(writers);
                self.take_readers(notices, archive);
            }
        }
    }

    // A passing task hands the lock over, if the rings have room for the notices and words.
    #[tactic(auto, using(queue::proofs::Sizes::at_most_64, crate::proofs::Fronts::taken_few))]
    pub(crate) fn try_pass(
        &mut self,
        task: Task,
        notices: &mut Ring<Entry>,
        archive: &mut Ring<u32>,
    ) -> Result<Outcome, Refusal>
        requires made { task.number < self.old.tasks }
        requires phase { phase_of task.number (lock_of W.LockWord.meaning Q.WaitQueue.entries self.old) ≡ Passing }
        ensures notices_lent { lent_name notices.new ≡ lent_name notices.old }
        ensures archive_lent { lent_name archive.new ≡ lent_name archive.old }
        ensures called { Called W.LockWord.sizes Move task.number (ring_room (held_of notices.old) (held_of archive.old)) (lock_of W.LockWord.meaning Q.WaitQueue.entries self.old) (held_of archive.old) result (lock_of W.LockWord.meaning Q.WaitQueue.entries self.new) (held_of archive.new) }
        ensures notices { held_of notices.new ≡ put_all (notices_of (step W.LockWord.sizes Move task.number (ring_room (held_of notices.old) (held_of archive.old)) (lock_of W.LockWord.meaning Q.WaitQueue.entries self.old))) (held_of notices.old) }
        ensures same { (e : Refusal) → result ≡ Err e → (self.new ≡ self.old) × (notices.new ≡ notices.old) × (archive.new ≡ archive.old) }
    {
        let count = self.taken_count();
        if notices.free() < count as usize {
            return Err(Refusal::NoticesFull);
        }
        room_for(archive, 2 + count as usize)?;
        let outcome = Outcome::Passed(count as u16);
        write_call(archive, Verb::Move, task.number, outcome);
        self.pass(task, notices, archive);
        Ok(outcome)
    }
}
