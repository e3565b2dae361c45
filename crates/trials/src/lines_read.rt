use lines::{Command, Fault, command, digits};
use std::process::Abort;
use std::test::Fail;
use types::{Refusal, Verb};

fn accepted(rt: &impl Abort, line: &[u8], expected: Command) {
    assert_eq!(rt; command(line), Ok(expected));
}

fn refused(rt: &impl Abort, line: &[u8], refusal: Refusal, place: usize) {
    assert_eq!(rt; command(line), Err(Fault { refusal, place }));
}

fn make(tasks: u16, spin: u16) -> Command {
    Command::Make { tasks, spin }
}

fn call(verb: Verb, task: u16) -> Command {
    Command::Call { verb, task }
}

#[test]
fn lines_that_are_commands(rt: HostRuntime) {
    accepted(&rt, b"n 3 0", make(3, 0));
    accepted(&rt, b"n 999 256", make(999, 256));
    accepted(&rt, b"r 2", call(Verb::ClaimRead, 2));
    accepted(&rt, b"w 12", call(Verb::ClaimWrite, 12));
    accepted(&rt, b"m 0", call(Verb::Move, 0));
    accepted(&rt, b"l 64", call(Verb::Leave, 64));
}

#[test]
fn lines_with_a_fault(rt: HostRuntime) {
    refused(&rt, b"", Refusal::UnknownLetter, 0);
    refused(&rt, b"x 1", Refusal::UnknownLetter, 0);
    refused(&rt, b"\xff", Refusal::UnknownLetter, 0);
    refused(&rt, b"r", Refusal::MissingSpace, 1);
    refused(&rt, b"r\xa0", Refusal::MissingSpace, 1);
    refused(&rt, b"r ", Refusal::MalformedNumber, 2);
    refused(&rt, b"r x", Refusal::MalformedNumber, 2);
    refused(&rt, b"n 01", Refusal::MalformedNumber, 2);
    refused(&rt, b"r 1234", Refusal::MalformedNumber, 2);
}

#[test]
fn lines_with_a_later_fault(rt: HostRuntime) {
    refused(&rt, b"n 3", Refusal::MissingSpace, 3);
    refused(&rt, b"n 3 ", Refusal::MalformedNumber, 4);
    refused(&rt, b"n 3 00", Refusal::MalformedNumber, 4);
    refused(&rt, b"n 3 0 ", Refusal::LeftOver, 5);
    refused(&rt, b"r 1 ", Refusal::LeftOver, 3);
    refused(&rt, b"r 1x", Refusal::LeftOver, 3);
}

#[test]
fn a_line_of_65536_bytes(rt: HostRuntime) -> Result<(), Fail> {
    let line = vec![in rt.alloc(); b'1'; 65_536]?;
    refused(&rt, line.as_slice(), Refusal::UnknownLetter, 0);
    Ok(())
}

#[test]
fn digits_of_words(rt: HostRuntime) {
    assert!(rt; digits(0x39ab_cdef).as_slice() == b"39abcdef".as_slice());
    assert!(rt; digits(0).as_slice() == b"00000000".as_slice());
}
