use crate::list::List;
use crate::queue::Waiters;
use std::fmt;

// Why a call, a line or a record is refused.
#[derive(Clone, Copy, PartialEq, Eq, Debug)]
pub enum Refusal {
    AlreadyMade = 1,
    WrongTasks = 2,
    WrongSpin = 3,
    ArchiveFull = 4,
    NotMade = 5,
    NoSuchTask = 6,
    NotOut = 7,
    NothingToDo = 8,
    NoticesFull = 9,
    HoldsNothing = 10,
    UnknownLetter = 11,
    MissingSpace = 12,
    MalformedNumber = 13,
    BytesLeftOver = 14,
    MissingWord = 15,
    UnfitWord = 16,
    Disagrees = 17,
}

impl Refusal {
    pub fn number(self) -> u8 {
        self as u8
    }
}

impl fmt::Display for Refusal {
    fn fmt<W: fmt::Write>(&self, f: &mut fmt::Formatter<W>) -> fmt::Result {
        self.number().fmt(f)
    }
}

// What an accepted call came to, with the attempts made or the tasks taken.
#[derive(Clone, Copy, PartialEq, Eq, Debug)]
pub enum Outcome {
    Claimed,
    Granted(u16),
    Again(u16),
    ToQueueLock(u16),
    HasQueueLock,
    Busy,
    Queued(u16),
    Out,
    Owes,
    Passed(u16),
}

impl Outcome {
    // Its number and its value. No cast gives the number of a variant that holds a value.
    pub fn numbers(self) -> (u8, u16) {
        match self {
            Outcome::Claimed => (0, 0),
            Outcome::Granted(attempts) => (1, attempts),
            Outcome::Again(attempts) => (2, attempts),
            Outcome::ToQueueLock(attempts) => (3, attempts),
            Outcome::HasQueueLock => (4, 0),
            Outcome::Busy => (5, 0),
            Outcome::Queued(attempts) => (6, attempts),
            Outcome::Out => (7, 0),
            Outcome::Owes => (8, 0),
            Outcome::Passed(taken) => (9, taken),
        }
    }
}

// What an accepted call did and wrote. A making has no outcome.
#[derive(Clone, Copy)]
pub struct Done {
    pub outcome: Option<Outcome>,
    pub taken: Waiters,
    pub words: List<u32, 66>,
}

pub type Answer = Result<Done, Refusal>;
