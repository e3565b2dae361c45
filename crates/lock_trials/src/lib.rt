// Refusals, blank locks and a hand-over, run on every pair of a lock word and a wait queue; more refusals and a pair of rings that two locks
// share, on one pair; the size of a lock.
#![tactic(auto)]

// A trial on every pair of a lock word and a wait queue.
#[cfg(test)]
macro_rules! on_every_kind {
    ($trial:ident, $rt:expr) => {{
        $trial::<packed::Packed, chain::Chain>($rt)?;
        $trial::<packed::Packed, strips::Strips>($rt)?;
        $trial::<grouped::Grouped, chain::Chain>($rt)?;
        $trial::<grouped::Grouped, strips::Strips>($rt)
    }};
}

#[cfg(test)]
mod blanks;
#[cfg(test)]
mod first_that_fits;
#[cfg(test)]
mod hand_over;
#[cfg(test)]
mod refused;
#[cfg(test)]
mod refused_calls;
#[cfg(test)]
mod refused_makings;
#[cfg(test)]
mod refused_passes;
#[cfg(test)]
mod shared_rings;
#[cfg(test)]
mod sizes;
#[cfg(test)]
mod steps;
#[cfg(test)]
mod without_room;
