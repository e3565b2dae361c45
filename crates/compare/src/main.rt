// Compares the library with a second implementation that was written on its own from docs/, on inputs that are drawn by a fixed generator.
#![tactic(auto)]

use anyhow::anyhow;
use chain::Chain;
use grouped::Grouped;
use packed::Packed;
use questions::Bits;
use queue::WaitQueue;
use std::io;
use strips::Strips;
use word::LockWord;

mod archives;
mod check;
mod codes;
mod dice;
mod library;
mod locks;
mod orders;
mod plan;
mod questions;
mod rings;
mod tally;
mod texts;
mod translated;
mod twin;

use archives::compare_archive;
use check::Failure;
use codes::compare_word;
use locks::compare_list;
use plan::Plan;
use tally::Tally;
use texts::compare_text;

// So many lists of calls for each pair of a word and a queue.
const LISTS: u32 = 450;

const TEXTS: u32 = 2_000;

const WORDS: u32 = 5_000;

const ARCHIVES: u32 = 600;

// Prints the first difference and ends in an error, where there is one.
fn judge(
    rt: &HostRuntime,
    kind: &str,
    seed: u32,
    compared: Result<(), Failure>,
) -> anyhow::Result<()> {
    match compared {
        Ok(()) => Ok(()),
        Err(Failure::Memory(error)) => Err(error.into()),
        Err(Failure::Differ(difference)) => {
            println!(rt; "{kind}, seed {seed}, {difference}")?;
            Err(anyhow!("the two differ"))
        }
    }
}

// Compares what is drawn from each seed, up to the first difference.
fn each_seed<F: FnMut(u32) -> Result<(), Failure>>(
    rt: &HostRuntime,
    kind: &str,
    seeds: u32,
    mut compare: F,
) -> anyhow::Result<()>
    requires { F.IsAlwaysCallable compare }
{
    for seed in 0..seeds {
        judge(rt, kind, seed, compare(seed))?;
    }
    Ok(())
}

fn compare_locks<W: LockWord + Bits + Drop, Q: WaitQueue + Drop>(
    rt: &HostRuntime,
    kind: &str,
    tally: &mut Tally,
) -> anyhow::Result<()> {
    let before = tally.calls;
    each_seed(rt, kind, LISTS, |seed| {
        compare_list::<W, Q>(rt.alloc(), tally, &Plan::drawn(seed))
    })?;
    let calls = tally.calls.saturating_sub(before);
    println!(rt; "{kind}: {calls} calls in {LISTS} lists")?;
    Ok(())
}

fn compare_inputs(rt: &HostRuntime, tally: &mut Tally) -> anyhow::Result<()> {
    let heap = rt.alloc();
    each_seed(rt, "drill", TEXTS, |seed| compare_text(heap, tally, seed))?;
    println!(rt; "drill: {} lines in {TEXTS} texts", tally.lines)?;
    each_seed(rt, "words", WORDS, |seed| compare_word(heap, tally, seed))?;
    println!(rt; "words: {}", tally.words)?;
    each_seed(rt, "archives", ARCHIVES, |seed| {
        compare_archive(heap, tally, seed)
    })?;
    println!(rt; "archives: {}", tally.archives)?;
    Ok(())
}

fn print_times(rt: &HostRuntime, tally: &Tally) -> io::Result<()> {
    for (number, times) in &tally.outcomes {
        println!(rt; "outcome {number}: {times}")?;
    }
    for (number, times) in &tally.refusals {
        println!(rt; "refusal {number}: {times}")?;
    }
    Ok(())
}

fn run(rt: &HostRuntime) -> anyhow::Result<()> {
    let mut tally = Tally::empty(rt.alloc());
    compare_locks::<Packed, Chain>(rt, "packed and chain", &mut tally)?;
    compare_locks::<Packed, Strips>(rt, "packed and strips", &mut tally)?;
    compare_locks::<Grouped, Chain>(rt, "grouped and chain", &mut tally)?;
    compare_locks::<Grouped, Strips>(rt, "grouped and strips", &mut tally)?;
    compare_inputs(rt, &mut tally)?;
    print_times(rt, &tally)?;
    if !tally.is_full() {
        return Err(anyhow!("an outcome or a refusal never came"));
    }
    Ok(())
}

fn main(rt: HostRuntime) -> anyhow::Result<()> {
    run(&rt)
}
