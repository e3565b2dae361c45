// What can be asked of a lock. No question alters anything. Those from `is_locked` on ask the word or the queue in one line each.
ghost use Rattle.std.specs.Prelude.{◌≡◌, length};
ghost use Rattle.word.specs.Words.{count};
ghost use Rattle.queue.specs.Queues.{entry_at};
ghost use Rattle.lock.specs.Meaning.{lock_of};
ghost use Rattle.lock.specs.Answers.{phase_answer};

use crate::Lock;
use queue::WaitQueue;
use rules::Phase;
use types::Entry;
use word::LockWord;

impl<W: LockWord + Drop, Q: WaitQueue + Drop> Lock<W, Q> {
    // The phase of a task; none from T up, and on a blank lock.
    pub fn phase(&self, task: u32) -> Option<Phase>
        ensures { result ≡ phase_answer task (lock_of W.LockWord.meaning Q.WaitQueue.entries self.now.state) }
    {
        if task >= self.state.tasks as u32 {
            return None;
        }
        Some(self.state.rows[task as usize].phase)
    }

    // The lock word, with its marks and counts.
    pub fn word(&self) -> &W
        ensures value { result.now ≡ self.now.state.word }
        ensures meaning { W.LockWord.meaning result.now ≡ (lock_of W.LockWord.meaning Q.WaitQueue.entries self.now.state).word }
    {
        &self.state.word
    }

    // The wait queue, which tells its length and its entries.
    pub fn queue(&self) -> &Q
        ensures value { result.now ≡ self.now.state.queue }
        ensures entries { Q.WaitQueue.entries result.now ≡ (lock_of W.LockWord.meaning Q.WaitQueue.entries self.now.state).queue }
    {
        &self.state.queue
    }

    pub fn is_locked(&self) -> bool
        ensures { result ≡ (lock_of W.LockWord.meaning Q.WaitQueue.entries self.now.state).word.locked }
    {
        self.state.word.is_locked()
    }

    pub fn writers_wait(&self) -> bool
        ensures { result ≡ (lock_of W.LockWord.meaning Q.WaitQueue.entries self.now.state).word.writers_wait }
    {
        self.state.word.writers_wait()
    }

    pub fn readers_wait(&self) -> bool
        ensures { result ≡ (lock_of W.LockWord.meaning Q.WaitQueue.entries self.now.state).word.readers_wait }
    {
        self.state.word.readers_wait()
    }

    // The reader count of a group, 0 past the last group.
    pub fn count(&self, group: u32) -> u32
        ensures { result ≡ count group (lock_of W.LockWord.meaning Q.WaitQueue.entries self.now.state).word }
    {
        self.state.word.count(group)
    }

    // How many tasks are queued.
    pub fn queue_len(&self) -> u32
        ensures { result ≡ length (lock_of W.LockWord.meaning Q.WaitQueue.entries self.now.state).queue }
    {
        self.state.queue.len()
    }

    // The entry at a place of the queue, from 0; none from its length up.
    pub fn queued(&self, place: u32) -> Option<Entry>
        ensures { result ≡ entry_at place (lock_of W.LockWord.meaning Q.WaitQueue.entries self.now.state).queue }
    {
        self.state.queue.entry_at(place)
    }
}
