use crate::check::{Check, Failure};
use crate::dice::Dice;
use crate::tally::Tally;
use plain::drill;
use std::alloc::{AllocError, Global};
use transcript::transcript;

const ODD_NUMBERS: [&[u8]; 14] = [
    b"",
    b"00",
    b"01",
    b"007",
    b"0000000000000000000000",
    b"64",
    b"65",
    b"255",
    b"256",
    b"999",
    b"1000",
    b"4294967297",
    b"99999999999999999999999999999999999999",
    b"-1",
];

// A text for the drill that is drawn from the dice, as far as it is drawn.
#[derive(Drop)]
struct Draft {
    heap: Global,
    dice: Dice,
    text: Vec<u8>,
}

impl Draft {
    fn any_byte(&mut self) -> u8 {
        self.dice.of(b"nrwmlNRx 0019-\t\r\0\x7f\x80\xa0\xff")
    }

    fn add_any_byte(&mut self) -> Result<(), AllocError> {
        let byte = self.any_byte();
        self.text.push(byte)?;
        Ok(())
    }

    fn add_number(&mut self, below: u32) -> Result<(), AllocError> {
        if self.dice.one_in(15) {
            let odd = self.dice.of(&ODD_NUMBERS);
            return self.text.extend_from_slice(odd);
        }
        let number = self.dice.below(below).min(99);
        let digits = format!(in self.heap; "{number}")?;
        self.text.extend_from_slice(digits.as_bytes())
    }

    // A space, or now and then nothing or another byte.
    fn add_space(&mut self) -> Result<(), AllocError> {
        match self.dice.below(40) {
            0 => Ok(()),
            1 => self.add_any_byte(),
            _ => Ok(self.text.push(b' ')?),
        }
    }

    fn add_letter(&mut self) -> Result<u8, AllocError> {
        let letter = if self.dice.one_in(40) {
            self.any_byte()
        } else {
            self.dice.of(b"rwmmmmlln")
        };
        self.text.push(letter)?;
        Ok(letter)
    }

    fn add_line(&mut self, tasks: u32) -> Result<(), AllocError> {
        let letter = self.add_letter()?;
        self.add_space()?;
        self.add_number(tasks)?;
        if letter == b'n' {
            self.add_space()?;
            self.add_number(3)?;
        }
        if self.dice.one_in(40) {
            self.add_any_byte()?;
        }
        Ok(())
    }

    fn add_garbage(&mut self) -> Result<(), AllocError> {
        for _ in 0..self.dice.below(8) {
            self.add_any_byte()?;
        }
        Ok(())
    }

    fn add_all(&mut self) -> Result<(), AllocError> {
        let tasks = self.dice.of(&[1, 2, 3, 4, 70]);
        if !self.dice.one_in(8) {
            self.text.extend_from_slice(b"n 4 0\n")?;
        }
        for _ in 0..self.dice.below(80) {
            if self.dice.one_in(30) {
                self.add_garbage()?;
            } else {
                self.add_line(tasks)?;
            }
            self.text.push(b'\n')?;
        }
        if self.dice.one_in(2) {
            self.add_line(tasks)?;
        }
        Ok(())
    }
}

fn drawn_text(heap: Global, seed: u32) -> Result<Vec<u8>, AllocError> {
    let mut draft = Draft {
        heap,
        dice: Dice::seeded(seed),
        text: Vec::new(heap),
    };
    draft.add_all()?;
    Ok(draft.text)
}

fn count_lines(tally: &mut Tally, text: &[u8]) {
    let lines = text.iter().filter(|byte| **byte == b'\n').count();
    tally.lines = tally.lines.saturating_add(lines as u64);
}

// Counts the refusals by the numbers in "refused 7" and "refused 13 at 2".
fn count_printed(tally: &mut Tally, printed: &str) -> Result<(), AllocError> {
    for line in printed.lines() {
        let Some(refused) = line.strip_prefix("refused ") else {
            continue;
        };
        let number = refused.split_whitespace().next().unwrap_or_default();
        if let Ok(number) = number.parse() {
            tally.refusal(number)?;
        }
    }
    Ok(())
}

fn same_bytes(check: Check, library: &[u8], plain: &[u8]) -> Result<(), Failure> {
    for (place, (library, plain)) in library.iter().zip(plain).enumerate() {
        check.same_at("printed byte", place, *library, *plain)?;
    }
    check.same("number of printed bytes", library.len(), plain.len())
}

// One text, drawn from this seed, through both drills.
pub(crate) fn compare_text(heap: Global, tally: &mut Tally, seed: u32) -> Result<(), Failure> {
    let text = drawn_text(heap, seed)?;
    let plain = drill(heap, &text)?;
    let library = transcript(heap, &text)?;
    same_bytes(Check::at_step(heap, 0), &library, plain.as_bytes())?;
    count_lines(tally, &text);
    count_printed(tally, plain.as_str())?;
    Ok(())
}
