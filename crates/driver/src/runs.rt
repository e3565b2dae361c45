// What can be asked of a setup.
ghost use Rattle.std.specs.Prelude.{◌≡◌, Err, length};
ghost use Rattle.types.specs.declared.Refusal.{Refusal};
ghost use Rattle.ring.specs.HeldOf.{lent_name};
ghost use Rattle.driver.specs.declared.trouble.Trouble.{Trouble};
ghost use Rattle.driver.specs.Lines.{blank_setup, called_of, setup_called, built_of, setup_made, ran, line_run};
ghost use Rattle.driver.specs.Meaning.{setup_of, packed_setup};

use crate::parts::{run_call, run_line};
use crate::setup::Setup;
use crate::trouble::Trouble;
use chain::Chain;
use lock::Lock;
use packed::Packed;
use queue::WaitQueue;
use ring::Ring;
use types::{Entry, Outcome, Refusal, Verb};
use word::LockWord;

impl<'n, 'a, W: LockWord + Drop, Q: WaitQueue + Drop> Setup<'n, 'a, W, Q> {
    // A lock that is not made yet, and rings over the lists, which are filled with blanks.
    pub fn blank(notices: &'n mut [Entry], archive: &'a mut [u32]) -> Setup<'n, 'a, W, Q>
        ensures notices_lent { lent_name result.notices ≡ notices.entry.ghost_name }
        ensures lent { lent_name result.archive ≡ archive.entry.ghost_name }
        ensures blank { setup_of W.LockWord.meaning Q.WaitQueue.entries result ≡ blank_setup W.LockWord.sizes (length notices.old) (length archive.old) }
    {
        Setup {
            lock: Lock::blank(),
            notices: Ring::over(notices),
            archive: Ring::over(archive),
        }
    }

    // Makes the lock, with its number of tasks and its spin allowance. A making that is refused alters nothing.
    pub fn make(&mut self, tasks: u32, spin: u32) -> Result<(), Refusal>
        ensures notices_lent { lent_name self.new.notices ≡ lent_name self.old.notices }
        ensures lent { lent_name self.new.archive ≡ lent_name self.old.archive }
        ensures answer { result ≡ built_of W.LockWord.sizes tasks spin (setup_of W.LockWord.meaning Q.WaitQueue.entries self.old) }
        ensures after { setup_of W.LockWord.meaning Q.WaitQueue.entries self.new ≡ setup_made W.LockWord.sizes tasks spin (setup_of W.LockWord.meaning Q.WaitQueue.entries self.old) }
        ensures same { (e : Refusal) → result ≡ Err e → self.new ≡ self.old }
    {
        self.lock.make(tasks, spin, &mut self.archive)
    }

    // Carries out a call of a task. A call that is refused alters nothing.
    pub fn call(&mut self, verb: Verb, task: u32) -> Result<Outcome, Refusal>
        ensures notices_lent { lent_name self.new.notices ≡ lent_name self.old.notices }
        ensures lent { lent_name self.new.archive ≡ lent_name self.old.archive }
        ensures answer { result ≡ called_of W.LockWord.sizes verb task (setup_of W.LockWord.meaning Q.WaitQueue.entries self.old) }
        ensures after { setup_of W.LockWord.meaning Q.WaitQueue.entries self.new ≡ setup_called W.LockWord.sizes verb task (setup_of W.LockWord.meaning Q.WaitQueue.entries self.old) }
        ensures same { (e : Refusal) → result ≡ Err e → self.new ≡ self.old }
    {
        run_call(
            &mut self.lock,
            &mut self.notices,
            &mut self.archive,
            verb,
            task,
        )
    }
}

impl Setup<'_, '_, Packed, Chain> {
    // Carries out a line. A line that is refused alters nothing, and neither does a call that is.
    pub fn run_line(&mut self, line: &[u8]) -> Result<(), Trouble>
        ensures notices_lent { lent_name self.new.notices ≡ lent_name self.old.notices }
        ensures lent { lent_name self.new.archive ≡ lent_name self.old.archive }
        ensures ran { ran result (packed_setup self.new) ≡ line_run line.now (packed_setup self.old) }
        ensures same { (e : Trouble) → result ≡ Err e → self.new ≡ self.old }
    {
        run_line(&mut self.lock, &mut self.notices, &mut self.archive, line)
    }
}
