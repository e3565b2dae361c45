use crate::answers::Answer;
use crate::letters::read_line;
use crate::lock::PlainLock;
use crate::rows::Rooms;
use std::alloc::{AllocError, Global};

fn add_answer(out: &mut String, answer: Answer) -> Result<(), AllocError> {
    match answer {
        Ok(done) => {
            for word in &done.words {
                writeln!(out, "{word:08x}")?;
            }
            Ok(())
        }
        Err(refusal) => writeln!(out, "refused {refusal}"),
    }
}

fn add_line(out: &mut String, lock: &mut PlainLock, line: &[u8]) -> Result<(), AllocError> {
    match read_line(line) {
        Ok(order) => add_answer(out, lock.carry_out(order, Rooms::AMPLE)),
        Err(fault) => writeln!(out, "refused {} at {}", fault.refusal, fault.place),
    }
}

// What the drill prints for a text. Its rings are empty before each line.
pub fn drill(heap: Global, text: &[u8]) -> Result<String, AllocError> {
    let mut lock = PlainLock::blank(1, 536_870_911);
    let mut out = String::new(heap);
    for line in text.split_inclusive(|byte| *byte == b'\n') {
        let line = line.strip_suffix(b"\n").unwrap_or(line);
        add_line(&mut out, &mut lock, line)?;
    }
    Ok(out)
}
