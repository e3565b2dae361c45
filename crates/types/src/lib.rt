// The plain values that every layer speaks of: directions, entries, verbs, outcomes and refusals, each with its number.
#![tactic(auto)]

ghost use Rattle.std.specs.Prelude.{◌≡◌, ◌++◌, Some, codes, decimal};
ghost use Rattle.types.specs.Numbers.{direction_number, verb_number, outcome_number, outcome_value, refusal_number, IsNumbered};

use std::error::Error;
use std::fmt;

// What a task wants of the table of settings.
#[derive(Clone, Copy, PartialEq, Eq, Debug)]
pub enum Direction {
    Read = 0,
    Write = 1,
}

impl Direction {
    pub fn number(self) -> u32
        ensures { result ≡ direction_number self }
    {
        self as u32
    }
}

// A number that no value of the type asked for has.
#[derive(Clone, Copy, PartialEq, Eq, Debug)]
pub struct UnknownNumber(pub u32);

impl fmt::Display for UnknownNumber {
    ghost output = { λ unknown. Some (codes "no value has the number " ++ decimal unknown.0) };

    fn fmt<W: fmt::Write>(&self, f: &mut fmt::Formatter<W>) -> fmt::Result {
        write!(f, "no value has the number {}", self.0)
    }
}

impl Error for UnknownNumber {}

impl TryFrom<u32> for Direction {
    type Error = UnknownNumber;

    ghost try_from_gives = { IsNumbered direction_number };

    fn try_from(number: u32) -> Result<Self, UnknownNumber> {
        match number {
            0 => Ok(Direction::Read),
            1 => Ok(Direction::Write),
            _ => Err(UnknownNumber(number)),
        }
    }
}

// A task with its direction: an entry of the wait queue, and the notice that it was passed the lock.
#[derive(Clone, Copy, PartialEq, Eq, Debug)]
pub struct Entry {
    pub task: u8,
    pub direction: Direction,
}

// What a task asks of the lock.
#[derive(Clone, Copy, PartialEq, Eq, Debug)]
pub enum Verb {
    ClaimRead = 1,
    ClaimWrite = 2,
    Move = 3,
    Leave = 4,
}

impl Verb {
    pub fn number(self) -> u32
        ensures { result ≡ verb_number self }
    {
        self as u32
    }
}

impl TryFrom<u32> for Verb {
    type Error = UnknownNumber;

    ghost try_from_gives = { IsNumbered verb_number };

    fn try_from(number: u32) -> Result<Self, UnknownNumber> {
        match number {
            1 => Ok(Verb::ClaimRead),
            2 => Ok(Verb::ClaimWrite),
            3 => Ok(Verb::Move),
            4 => Ok(Verb::Leave),
            _ => Err(UnknownNumber(number)),
        }
    }
}

// What an accepted claim, move or leave came to. A number in brackets is the attempts made, in Passed the tasks taken.
#[derive(Clone, Copy, PartialEq, Eq, Debug)]
pub enum Outcome {
    Claimed,
    Granted(u16),
    Again(u16),
    ToQueueLock(u16),
    HasQueueLock,
    Busy,
    Queued(u16),
    Out,
    Owes,
    Passed(u16),
}

impl Outcome {
    // No cast gives the number of a variant that holds a value.
    pub fn number(self) -> u32
        ensures { result ≡ outcome_number self }
    {
        match self {
            Outcome::Claimed => 0,
            Outcome::Granted(_) => 1,
            Outcome::Again(_) => 2,
            Outcome::ToQueueLock(_) => 3,
            Outcome::HasQueueLock => 4,
            Outcome::Busy => 5,
            Outcome::Queued(_) => 6,
            Outcome::Out => 7,
            Outcome::Owes => 8,
            Outcome::Passed(_) => 9,
        }
    }

    pub fn value(self) -> u32
        ensures { result ≡ outcome_value self }
    {
        match self {
            Outcome::Granted(attempts)
            | Outcome::Again(attempts)
            | Outcome::ToQueueLock(attempts)
            | Outcome::Queued(attempts) => attempts as u32,
            Outcome::Passed(taken) => taken as u32,
            Outcome::Claimed
            | Outcome::HasQueueLock
            | Outcome::Busy
            | Outcome::Out
            | Outcome::Owes => 0,
        }
    }
}

// What a word of the archive says.
#[derive(Clone, Copy, PartialEq, Eq, Debug)]
pub enum ArchiveWord {
    Making { spin: u8, tasks: u8 },
    Call { verb: Verb, task: u8 },
    Outcome(Outcome),
    Notice(Entry),
}

// Why a call, a line or a record is refused.
#[derive(Clone, Copy, PartialEq, Eq, Debug)]
pub enum Refusal {
    AlreadyMade = 1,
    TasksOutOfRange = 2,
    SpinOutOfRange = 3,
    ArchiveFull = 4,
    NotMade = 5,
    NoSuchTask = 6,
    NotOut = 7,
    CannotMove = 8,
    NoticesFull = 9,
    HoldsNothing = 10,
    UnknownLetter = 11,
    MissingSpace = 12,
    MalformedNumber = 13,
    LeftOver = 14,
    MissingWord = 15,
    OutsideLayout = 16,
    Disagrees = 17,
}

impl Refusal {
    pub fn number(self) -> u8
        ensures { result ≡ refusal_number self }
    {
        self as u8
    }
}

// A refusal is printed as its number.
impl fmt::Display for Refusal {
    ghost output = { λ refusal. Some (decimal (refusal_number refusal)) };

    fn fmt<W: fmt::Write>(&self, f: &mut fmt::Formatter<W>) -> fmt::Result {
        self.number().fmt(f)
    }
}

impl Error for Refusal {}
