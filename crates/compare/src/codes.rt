use crate::check::{Check, Failure};
use crate::dice::Dice;
use crate::tally::Tally;
use crate::translated::meaning;
use plain::Meaning;
use std::alloc::Global;

// A word that is in the layout or near it.
pub(crate) fn any_word(dice: &mut Dice) -> u32 {
    let kind = dice.of(&[1, 2, 2, 3, 3, 3, 4, 4, 4, 5]);
    let second = dice.of(&[0, 0, 1, 2, 3, 3, 4, 6, 7, 9, 9, 10]);
    let third = dice.of(&[0, 0, 0, 0, 1, 1, 2, 255]);
    let fourth = dice.of(&[0, 1, 1, 2, 3, 63, 64, 65]);
    u32::from_be_bytes([kind << 4 | second, 0, third, fourth])
}

fn same_word(check: Check, word: u32) -> Result<(), Failure> {
    check.same_at(
        "meaning of the word",
        word as usize,
        archive::read(word).map(meaning),
        Meaning::read(word),
    )
}

// A word drawn from this seed, as it is and with each bit turned.
pub(crate) fn compare_word(heap: Global, tally: &mut Tally, seed: u32) -> Result<(), Failure> {
    let check = Check::at_step(heap, 0);
    let word = any_word(&mut Dice::seeded(seed));
    same_word(check, word)?;
    for bit in 0..32 {
        same_word(check, word ^ 1u32.rotate_left(bit))?;
    }
    tally.words = tally.words.saturating_add(33);
    Ok(())
}
