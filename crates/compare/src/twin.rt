use crate::plan::Plan;
use plain::{Answer, Order, PlainLock, PlainRing, Rooms, Waiter};

// The plain lock with rings of its own.
#[derive(Drop)]
pub struct Twin {
    pub lock: PlainLock,
    pub notices: PlainRing<Waiter>,
    pub archive: PlainRing<u32>,
}

impl Twin {
    pub(crate) fn blank(groups: u32, limit: u32, plan: &Plan) -> Twin {
        Twin {
            lock: PlainLock::blank(groups as usize, limit),
            notices: PlainRing::over(plan.notice_places, Waiter::default()),
            archive: PlainRing::over(plan.archive_places, 0),
        }
    }

    pub(crate) fn carry_out(&mut self, order: Order) -> Answer {
        let rooms = Rooms {
            notices: self.notices.free(),
            archive: self.archive.free(),
        };
        let done = self.lock.carry_out(order, rooms)?;
        for word in &done.words {
            self.archive.put(*word);
        }
        for waiter in &done.taken {
            self.notices.put(*waiter);
        }
        Ok(done)
    }
}
