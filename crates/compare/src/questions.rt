use crate::check::{Check, Failure};
use crate::translated::{step, waiter};
use grouped::Grouped;
use lock::Lock;
use packed::Packed;
use plain::{PlainLock, PlainWord};
use queue::WaitQueue;
use word::LockWord;

// A word whose bits can perhaps be read.
pub trait Bits {
    fn bits_of(&self) -> Option<u32>;
}

impl Bits for Packed {
    fn bits_of(&self) -> Option<u32> {
        Some(self.bits())
    }
}

impl Bits for Grouped {
    fn bits_of(&self) -> Option<u32> {
        None
    }
}

fn same_phase<W: LockWord + Drop, Q: WaitQueue + Drop>(
    check: Check,
    lock: &Lock<W, Q>,
    plain: &PlainLock,
    task: u32,
) -> Result<(), Failure> {
    check.same_at(
        "phase of task",
        task as usize,
        lock.phase(task).map(step),
        plain.step_of(task as usize),
    )
}

fn same_phases<W: LockWord + Drop, Q: WaitQueue + Drop>(
    check: Check,
    lock: &Lock<W, Q>,
    plain: &PlainLock,
) -> Result<(), Failure> {
    for task in 0..66 {
        same_phase(check, lock, plain, task)?;
    }
    same_phase(check, lock, plain, u32::MAX)
}

// The bits of a packed word with these marks and counts.
fn packed_bits(word: &PlainWord) -> u32 {
    u32::from(word.locked) << 31
        | u32::from(word.writers_wait) << 30
        | u32::from(word.readers_wait) << 29
        | word.counts.first().copied().unwrap_or(0)
}

fn same_words<W: LockWord + Bits>(
    check: Check,
    word: &W,
    plain: &PlainWord,
) -> Result<(), Failure> {
    check.same("W-locked", word.is_locked(), plain.locked)?;
    check.same("W-waiters", word.writers_wait(), plain.writers_wait)?;
    check.same("R-waiters", word.readers_wait(), plain.readers_wait)?;
    for group in 0..10 {
        let place = group as usize;
        let count = plain.counts.get(place).unwrap_or(0);
        check.same_at("count of group", place, word.count(group), count)?;
    }
    check.same("count past all groups", word.count(u32::MAX), 0)?;
    if let Some(bits) = word.bits_of() {
        check.same("bits of the word", bits, packed_bits(plain))?;
    }
    Ok(())
}

fn same_queues<Q: WaitQueue>(check: Check, queue: &Q, plain: &PlainLock) -> Result<(), Failure> {
    check.same("tasks queued", queue.len() as usize, plain.queue.len())?;
    for place in 0..queue.len().saturating_add(2) {
        check.same_at(
            "entry at",
            place as usize,
            queue.entry_at(place).map(waiter),
            plain.queue.get(place as usize),
        )?;
    }
    check.same("entry past all", queue.entry_at(u32::MAX).map(waiter), None)
}

// Asks both locks every question.
pub(crate) fn same_state<W: LockWord + Bits + Drop, Q: WaitQueue + Drop>(
    check: Check,
    lock: &Lock<W, Q>,
    plain: &PlainLock,
) -> Result<(), Failure> {
    same_phases(check, lock, plain)?;
    same_words(check, lock.word(), &plain.word)?;
    same_queues(check, lock.queue(), plain)
}
