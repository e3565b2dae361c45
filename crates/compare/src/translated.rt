// The library's values as those of the second implementation.
use crate::check::{Check, Failure};
use plain::{Direction, Meaning, Outcome, Refusal, Step, Verb, Waiter};
use rules::Phase;
use types::{ArchiveWord, Entry};

fn direction(direction: types::Direction) -> Direction {
    match direction {
        types::Direction::Read => Direction::Read,
        types::Direction::Write => Direction::Write,
    }
}

pub(crate) fn waiter(entry: Entry) -> Waiter {
    Waiter {
        task: entry.task,
        direction: direction(entry.direction),
    }
}

pub(crate) fn step(phase: Phase) -> Step {
    match phase {
        Phase::Out => Step::Out,
        Phase::Claiming(way) => Step::Claiming(direction(way)),
        Phase::AtQueueLock(way) => Step::AtQueueLock(direction(way)),
        Phase::Queueing(way) => Step::Queueing(direction(way)),
        Phase::Queued(way) => Step::Queued(direction(way)),
        Phase::Holding(way) => Step::Holding(direction(way)),
        Phase::Owing => Step::Owing,
        Phase::Passing => Step::Passing,
    }
}

fn verb(verb: types::Verb) -> Verb {
    match verb {
        types::Verb::ClaimRead => Verb::ClaimToRead,
        types::Verb::ClaimWrite => Verb::ClaimToWrite,
        types::Verb::Move => Verb::Move,
        types::Verb::Leave => Verb::Leave,
    }
}

pub(crate) fn outcome(outcome: types::Outcome) -> Outcome {
    match outcome {
        types::Outcome::Claimed => Outcome::Claimed,
        types::Outcome::Granted(attempts) => Outcome::Granted(attempts),
        types::Outcome::Again(attempts) => Outcome::Again(attempts),
        types::Outcome::ToQueueLock(attempts) => Outcome::ToQueueLock(attempts),
        types::Outcome::HasQueueLock => Outcome::HasQueueLock,
        types::Outcome::Busy => Outcome::Busy,
        types::Outcome::Queued(attempts) => Outcome::Queued(attempts),
        types::Outcome::Out => Outcome::Out,
        types::Outcome::Owes => Outcome::Owes,
        types::Outcome::Passed(taken) => Outcome::Passed(taken),
    }
}

pub(crate) fn meaning(word: ArchiveWord) -> Meaning {
    match word {
        ArchiveWord::Making { spin, tasks } => Meaning::Making { tasks, spin },
        ArchiveWord::Call { verb: asked, task } => Meaning::Call {
            verb: verb(asked),
            task,
        },
        ArchiveWord::Outcome(answered) => Meaning::Outcome(outcome(answered)),
        ArchiveWord::Notice(entry) => Meaning::Notice(waiter(entry)),
    }
}

fn refusal(refusal: types::Refusal) -> Refusal {
    match refusal {
        types::Refusal::AlreadyMade => Refusal::AlreadyMade,
        types::Refusal::TasksOutOfRange => Refusal::WrongTasks,
        types::Refusal::SpinOutOfRange => Refusal::WrongSpin,
        types::Refusal::ArchiveFull => Refusal::ArchiveFull,
        types::Refusal::NotMade => Refusal::NotMade,
        types::Refusal::NoSuchTask => Refusal::NoSuchTask,
        types::Refusal::NotOut => Refusal::NotOut,
        types::Refusal::CannotMove => Refusal::NothingToDo,
        types::Refusal::NoticesFull => Refusal::NoticesFull,
        types::Refusal::HoldsNothing => Refusal::HoldsNothing,
        types::Refusal::UnknownLetter => Refusal::UnknownLetter,
        types::Refusal::MissingSpace => Refusal::MissingSpace,
        types::Refusal::MalformedNumber => Refusal::MalformedNumber,
        types::Refusal::LeftOver => Refusal::BytesLeftOver,
        types::Refusal::MissingWord => Refusal::MissingWord,
        types::Refusal::OutsideLayout => Refusal::UnfitWord,
        types::Refusal::Disagrees => Refusal::Disagrees,
    }
}

// Whether both refuse for the same reason, under the same number.
pub(crate) fn same_refusal(
    check: Check,
    library: Option<types::Refusal>,
    plain: Option<Refusal>,
) -> Result<(), Failure> {
    check.same("refusal", library.map(refusal), plain)?;
    check.same(
        "number of the refusal",
        library.map(|refusal| refusal.number()),
        plain.map(|refusal| refusal.number()),
    )
}
