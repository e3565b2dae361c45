// What a line is read to: a command or a fault.
use types::{Refusal, Verb};

// What a line asks for: a making with its numbers of tasks and spins, or a call of a task.
#[derive(Clone, Copy, PartialEq, Eq, Debug)]
pub enum Command {
    Make { tasks: u16, spin: u16 },
    Call { verb: Verb, task: u16 },
}

// Why a line is refused, and the byte of the line where the part that does not fit begins or should begin.
#[derive(Clone, Copy, PartialEq, Eq, Debug)]
pub struct Fault {
    pub refusal: Refusal,
    pub place: usize,
}
