use driver::Setup;
use plain::{Order, Verb};
use queue::WaitQueue;
use types::{Outcome, Refusal};
use word::LockWord;

fn verb(verb: Verb) -> types::Verb {
    match verb {
        Verb::ClaimToRead => types::Verb::ClaimRead,
        Verb::ClaimToWrite => types::Verb::ClaimWrite,
        Verb::Move => types::Verb::Move,
        Verb::Leave => types::Verb::Leave,
    }
}

// Carries an order out on the library's lock with its rings. A making has no outcome.
pub(crate) fn carry_out<W: LockWord + Drop, Q: WaitQueue + Drop>(
    library: &mut Setup<W, Q>,
    order: Order,
) -> Result<Option<Outcome>, Refusal> {
    match order {
        Order::Make { tasks, spin } => library.make(tasks, spin).map(|_| None),
        Order::Call(call) => library.call(verb(call.verb), call.task).map(Some),
    }
}
