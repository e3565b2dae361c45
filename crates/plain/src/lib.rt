// A second implementation of the rules, the archive words, the drill and the reading of archives: plain lists and no proof but that it
// is safe and returns. It shares nothing with the library, which it is compared with.
#![tactic(auto)]

mod answers;
mod drilling;
mod letters;
mod list;
mod lock;
mod moves;
mod queue;
mod retracing;
mod ring;
mod rows;
mod word;
mod words;

pub use answers::{Answer, Done, Outcome, Refusal};
pub use drilling::drill;
pub use list::List;
pub use lock::PlainLock;
pub use queue::{Waiter, Waiters};
pub use retracing::{Retraced, retrace};
pub use ring::PlainRing;
pub use rows::{Call, Direction, Order, Rooms, Row, Step, Verb};
pub use word::PlainWord;
pub use words::{Meaning, read_word};
