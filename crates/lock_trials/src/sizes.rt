use chain::Chain;
use grouped::Grouped;
use lock::Lock;
use packed::Packed;
use std::mem::size_of;
use strips::Strips;

// The lock of 64 tasks, its word and its queue included, takes at most 1 KiB. As a trial on every kind, the four lines would be longer.
#[test]
fn lock_takes_at_most_a_kibibyte(rt: HostRuntime) {
    assert!(rt; size_of::<Lock<Packed, Chain>>() <= 1024);
    assert!(rt; size_of::<Lock<Packed, Strips>>() <= 1024);
    assert!(rt; size_of::<Lock<Grouped, Chain>>() <= 1024);
    assert!(rt; size_of::<Lock<Grouped, Strips>>() <= 1024);
}
