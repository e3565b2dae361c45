use plain::Refusal;
use std::alloc::{AllocError, Global};
use std::collections::BTreeMap;

// How many were compared, and how often each outcome and each refusal came, by its number.
#[derive(Drop)]
pub struct Tally {
    pub calls: u64,
    pub lines: u64,
    pub words: u64,
    pub archives: u64,
    pub outcomes: BTreeMap<u8, u64>,
    pub refusals: BTreeMap<u8, u64>,
}

fn count(times: &mut BTreeMap<u8, u64>, number: u8) -> Result<(), AllocError> {
    let times = times.entry(number)?.or_insert(0);
    *times = times.saturating_add(1);
    Ok(())
}

impl Tally {
    pub(crate) fn empty(heap: Global) -> Tally {
        Tally {
            calls: 0,
            lines: 0,
            words: 0,
            archives: 0,
            outcomes: BTreeMap::new(heap),
            refusals: BTreeMap::new(heap),
        }
    }

    pub(crate) fn outcome(&mut self, number: u8) -> Result<(), AllocError> {
        count(&mut self.outcomes, number)
    }

    pub(crate) fn refusal(&mut self, number: u8) -> Result<(), AllocError> {
        count(&mut self.refusals, number)
    }

    pub(crate) fn archive(&mut self, refusal: Option<Refusal>) -> Result<(), AllocError> {
        self.archives = self.archives.saturating_add(1);
        match refusal {
            Some(refusal) => self.refusal(refusal.number()),
            None => Ok(()),
        }
    }

    // Whether each outcome from 0 to 9 and each refusal from 1 to 17 came.
    pub(crate) fn is_full(&self) -> bool {
        (0..10).all(|number| self.outcomes.contains_key(&number))
            && (1..18).all(|number| self.refusals.contains_key(&number))
    }
}
