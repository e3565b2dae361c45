use crate::list::List;
use crate::rows::Direction;

// Three marks and a list of reader counts, one for each group.
#[derive(Clone, Copy)]
pub struct PlainWord {
    pub locked: bool,
    pub writers_wait: bool,
    pub readers_wait: bool,
    pub counts: List<u32, 64>,
    limit: u32,
}

impl PlainWord {
    pub(crate) fn fresh(groups: usize, limit: u32) -> PlainWord {
        PlainWord {
            locked: false,
            writers_wait: false,
            readers_wait: false,
            counts: List::filled(0, groups),
            limit,
        }
    }

    fn group_of(&self, task: u8) -> usize {
        usize::from(task)
            .checked_rem(self.counts.len())
            .unwrap_or(0)
    }

    pub(crate) fn nobody_reads(&self) -> bool {
        self.counts.iter().all(|count| *count == 0)
    }

    pub(crate) fn enter(&mut self, task: u8, direction: Direction) -> bool {
        match direction {
            Direction::Read => !self.writers_wait && self.admit(task),
            Direction::Write => self.enter_to_write(),
        }
    }

    pub(crate) fn enter_to_write(&mut self) -> bool {
        let marked = self.locked || self.writers_wait || self.readers_wait;
        let enters = !marked && self.nobody_reads();
        if enters {
            self.locked = true;
        }
        enters
    }

    pub(crate) fn admit(&mut self, task: u8) -> bool {
        let group = self.group_of(task);
        let limit = self.limit;
        match self.counts.get_mut(group) {
            Some(count) if !self.locked && *count < limit => {
                *count += 1;
                true
            }
            _ => false,
        }
    }

    pub(crate) fn leave_reading(&mut self, task: u8) {
        let group = self.group_of(task);
        if let Some(count) = self.counts.get_mut(group) {
            *count = count.saturating_sub(1);
        }
    }

    pub(crate) fn leave_writing(&mut self) -> bool {
        let leaves = self.locked && !self.writers_wait && !self.readers_wait;
        if leaves {
            self.locked = false;
        }
        leaves
    }

    pub(crate) fn mark(&mut self, direction: Direction) {
        match direction {
            Direction::Read => self.readers_wait = true,
            Direction::Write => self.writers_wait = true,
        }
    }
}
