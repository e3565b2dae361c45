use crate::check::{Check, Failure};
use crate::codes::any_word;
use crate::dice::Dice;
use crate::orders::{next_order, task_of};
use crate::plan::Plan;
use crate::tally::Tally;
use crate::translated::same_refusal;
use plain::{PlainLock, Retraced, Rooms};
use std::alloc::{AllocError, Global};

// The words that an archive has room for.
const MOST: usize = 1_024;

// What drawn calls write, and how many of them were accepted.
fn written(heap: Global, dice: &mut Dice, plan: &Plan) -> Result<(Vec<u32>, usize), AllocError> {
    let mut lock = PlainLock::blank(1, 536_870_911);
    let mut words = Vec::new(heap);
    let mut accepted: usize = 0;
    let mut last = 0;
    for _ in 0..dice.below(plan.calls) {
        let order = next_order(dice, plan, &lock, last);
        last = task_of(order);
        if words.len() + 66 > MOST {
            break;
        }
        if let Ok(done) = lock.carry_out(order, Rooms::AMPLE) {
            accepted = accepted.saturating_add(1);
            words.extend_from_slice(done.words.as_slice())?;
        }
    }
    Ok((words, accepted))
}

// Another word in this one's place, mostly near it. Each arm draws on in its own way, and a name for it would be used here alone.
fn changed(dice: &mut Dice, words: &[u32], word: u32) -> u32 {
    match dice.below(6) {
        0 => word.wrapping_add(1),
        1 => word.wrapping_sub(1),
        2 => word
            ^ dice.of(&[
                0x80,
                0x100,
                0x200,
                0x1_0000,
                0x80_0000,
                0x0100_0000,
                0x1000_0000,
            ]),
        3 => words.get(dice.index(words.len())).copied().unwrap_or(0),
        4 => any_word(dice),
        _ => dice.roll(),
    }
}

// What is done to an archive at one place.
#[derive(Clone, Copy, Default)]
enum Damage {
    #[default]
    Change,
    Drop,
    Double,
    SwapWithNext,
    CutOff,
    // Other words stand from there on.
    Overwrite,
}

const DAMAGES: [Damage; 6] = [
    Damage::Change,
    Damage::Drop,
    Damage::Double,
    Damage::SwapWithNext,
    Damage::CutOff,
    Damage::Overwrite,
];

fn damaged(heap: Global, dice: &mut Dice, words: &[u32]) -> Result<Vec<u32>, AllocError> {
    let at = dice.index(words.len());
    let damage = dice.of(&DAMAGES);
    let mut list = words.to_vec(heap)?;
    let Some(word) = words.get(at).copied() else {
        return Ok(list);
    };
    match damage {
        Damage::Change => list[at] = changed(dice, words, word),
        Damage::Drop => {
            list.remove(at);
        }
        Damage::Double => list.insert(at, word)?,
        Damage::SwapWithNext if at + 1 < list.len() => list.swap(at, at + 1),
        Damage::SwapWithNext => list[at] = 0,
        Damage::CutOff => list.truncate(at),
        Damage::Overwrite => {
            for word in &mut list[at..] {
                *word = any_word(dice);
            }
        }
    }
    Ok(list)
}

// Retraces a list both ways.
fn compare_words(check: Check, words: &[u32]) -> Result<Retraced, Failure> {
    let library = retracing::retrace(words);
    let plain = plain::retrace(words);
    check.same("records agreed", library.agreed, plain.agreed)?;
    same_refusal(check, library.refusal, plain.refusal)?;
    Ok(plain)
}

// An archive drawn from this seed, whole and then damaged in some ways. The whole one agrees to its end.
pub(crate) fn compare_archive(heap: Global, tally: &mut Tally, seed: u32) -> Result<(), Failure> {
    let mut dice = Dice::seeded(seed);
    let (words, accepted) = written(heap, &mut dice, &Plan::drawn(seed))?;
    let check = Check::at_step(heap, 0);
    let whole = compare_words(check, &words)?;
    check.same("records of the whole archive", whole.agreed, accepted)?;
    tally.archive(whole.refusal)?;
    for number in 1..21 {
        let list = damaged(heap, &mut dice, &words)?;
        let retraced = compare_words(Check::at_step(heap, number), &list)?;
        tally.archive(retraced.refusal)?;
    }
    Ok(())
}
