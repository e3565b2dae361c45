// What a task wants of the table of settings.
#[derive(Clone, Copy, PartialEq, Eq, Debug)]
pub enum Direction {
    Read = 0,
    Write = 1,
}

// Where a task stands.
#[derive(Clone, Copy, PartialEq, Eq, Debug, Default)]
pub enum Step {
    #[default]
    Out,
    Claiming(Direction),
    AtQueueLock(Direction),
    Queueing(Direction),
    Queued(Direction),
    Holding(Direction),
    Owing,
    Passing,
}

#[derive(Clone, Copy, Default)]
pub struct Row {
    pub step: Step,
    pub attempts: u16,
}

impl Row {
    pub const OUT: Row = Row {
        step: Step::Out,
        attempts: 0,
    };
}

// Each with its number in a call word.
#[derive(Clone, Copy, PartialEq, Eq, Debug, Default)]
pub enum Verb {
    #[default]
    ClaimToRead = 1,
    ClaimToWrite = 2,
    Move = 3,
    Leave = 4,
}

impl Verb {
    pub fn number(self) -> u32 {
        self as u32
    }
}

#[derive(Clone, Copy)]
pub struct Call {
    pub verb: Verb,
    pub task: u32,
}

// What can be asked of a lock.
#[derive(Clone, Copy)]
pub enum Order {
    Make { tasks: u32, spin: u32 },
    Call(Call),
}

// How many places are free in the two rings.
#[derive(Clone, Copy)]
pub struct Rooms {
    pub notices: usize,
    pub archive: usize,
}

impl Rooms {
    // Empty rings of 64 notices and 66 words, which have room for what any call writes.
    pub const AMPLE: Rooms = Rooms {
        notices: 64,
        archive: 66,
    };
}
