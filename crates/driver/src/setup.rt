// A lock with the two rings that it writes to.
use lock::Lock;
use ring::Ring;
use types::Entry;

// A lock, the notices of the tasks that it was passed to, and its archive. Rings of any size may hold anything: that they are
// empty and have ample room is said where it is needed, and is no invariant here.
#[derive(Drop)]
pub struct Setup<'n, 'a, W, Q> {
    pub lock: Lock<W, Q>,
    pub notices: Ring<'n, Entry>,
    pub archive: Ring<'a, u32>,
}
