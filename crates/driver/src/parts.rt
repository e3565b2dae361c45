// What a call, or a line of the drill's input, does to a lock and two rings that the caller lends.
ghost use Rattle.std.specs.Prelude.{◌≡◌, Err};
ghost use Rattle.types.specs.declared.Refusal.{Refusal};
ghost use Rattle.ring.specs.HeldOf.{lent_name};
ghost use Rattle.driver.specs.declared.trouble.Trouble.{Trouble};
ghost use Rattle.driver.specs.Lines.{called_of, setup_called, ran, line_run};
ghost use Rattle.driver.specs.Meaning.{parts_setup, packed_parts};

use crate::trouble::Trouble;
use chain::Chain;
use lines::{Command, command};
use lock::Lock;
use packed::Packed;
use queue::WaitQueue;
use ring::Ring;
use types::{Direction, Entry, Outcome, Refusal, Verb};
use word::LockWord;

// Carries out a call of a task. A call that is refused alters nothing.
pub fn run_call<W: LockWord + Drop, Q: WaitQueue + Drop>(
    lock: &mut Lock<W, Q>,
    notices: &mut Ring<Entry>,
    archive: &mut Ring<u32>,
    verb: Verb,
    task: u32,
) -> Result<Outcome, Refusal>
    ensures notices_lent { lent_name notices.new ≡ lent_name notices.old }
    ensures lent { lent_name archive.new ≡ lent_name archive.old }
    ensures answer { result ≡ called_of W.LockWord.sizes verb task (parts_setup W.LockWord.meaning Q.WaitQueue.entries lock.old notices.old archive.old) }
    ensures after { parts_setup W.LockWord.meaning Q.WaitQueue.entries lock.new notices.new archive.new ≡ setup_called W.LockWord.sizes verb task (parts_setup W.LockWord.meaning Q.WaitQueue.entries lock.old notices.old archive.old) }
    ensures same { (e : Refusal) → result ≡ Err e → (lock.new ≡ lock.old) × (notices.new ≡ notices.old) × (archive.new ≡ archive.old) }
{
    match verb {
        Verb::ClaimRead => lock.claim(task, Direction::Read, archive),
        Verb::ClaimWrite => lock.claim(task, Direction::Write, archive),
        Verb::Move => lock.advance(task, notices, archive),
        Verb::Leave => lock.leave(task, archive),
    }
}

// Carries out a line. A line that is refused alters nothing, and neither does a call that is.
#[tactic(auto, unfolding(crate::specs::Lines::make_answer))]
pub fn run_line(
    lock: &mut Lock<Packed, Chain>,
    notices: &mut Ring<Entry>,
    archive: &mut Ring<u32>,
    line: &[u8],
) -> Result<(), Trouble>
    ensures notices_lent { lent_name notices.new ≡ lent_name notices.old }
    ensures lent { lent_name archive.new ≡ lent_name archive.old }
    ensures ran { ran result (packed_parts lock.new notices.new archive.new) ≡ line_run line.now (packed_parts lock.old notices.old archive.old) }
    ensures same { (e : Trouble) → result ≡ Err e → (lock.new ≡ lock.old) × (notices.new ≡ notices.old) × (archive.new ≡ archive.old) }
{
    match command(line)? {
        Command::Make { tasks, spin } => lock.make(u32::from(tasks), u32::from(spin), archive)?,
        Command::Call { verb, task } => {
            run_call(lock, notices, archive, verb, u32::from(task))?;
        }
    }
    Ok(())
}
