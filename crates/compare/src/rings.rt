use crate::check::{Check, Failure};
use crate::dice::Dice;
use crate::translated::waiter;
use crate::twin::Twin;
use driver::Setup;
use types::Entry;

pub(crate) fn same_rooms<W, Q>(
    check: Check,
    library: &Setup<W, Q>,
    twin: &Twin,
) -> Result<(), Failure> {
    check.same(
        "free notice places",
        library.notices.free(),
        twin.notices.free(),
    )?;
    check.same(
        "free archive places",
        library.archive.free(),
        twin.archive.free(),
    )?;
    check.same("notices kept", library.notices.len(), twin.notices.len())?;
    check.same("words kept", library.archive.len(), twin.archive.len())
}

// Takes some words out of both archives, perhaps one more than there are.
pub(crate) fn take_words<W, Q>(
    check: Check,
    dice: &mut Dice,
    library: &mut Setup<W, Q>,
    twin: &mut Twin,
) -> Result<(), Failure> {
    for _ in 0..dice.index(library.archive.len().saturating_add(2)) {
        check.same("word taken", library.archive.take(), twin.archive.take())?;
    }
    Ok(())
}

pub(crate) fn take_notices<W, Q>(
    check: Check,
    dice: &mut Dice,
    library: &mut Setup<W, Q>,
    twin: &mut Twin,
) -> Result<(), Failure> {
    for _ in 0..dice.index(library.notices.len().saturating_add(2)) {
        check.same(
            "notice taken",
            library.notices.take().map(waiter),
            twin.notices.take(),
        )?;
    }
    Ok(())
}

// The lent lists, once the rings have ended.
pub(crate) fn same_lists(
    check: Check,
    notices: &[Entry],
    archive: &[u32],
    twin: &Twin,
) -> Result<(), Failure> {
    for (place, notice) in notices.iter().enumerate() {
        check.same_at(
            "notice at place",
            place,
            waiter(*notice),
            twin.notices.at_place(place),
        )?;
    }
    for (place, word) in archive.iter().enumerate() {
        check.same_at("word at place", place, *word, twin.archive.at_place(place))?;
    }
    Ok(())
}
