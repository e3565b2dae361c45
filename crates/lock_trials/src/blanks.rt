use lock::Lock;
use queue::WaitQueue;
use std::process::Abort;
use std::test::Fail;
use word::LockWord;

fn blank_answers<W: LockWord + Drop, Q: WaitQueue + Drop>(rt: &impl Abort) -> Result<(), Fail> {
    let lock = Lock::<W, Q>::blank();
    assert_eq!(rt; lock.phase(0), None);
    assert_eq!(rt; lock.phase(u32::MAX), None);
    assert!(rt; !lock.is_locked() && !lock.writers_wait() && !lock.readers_wait());
    assert_eq!(rt; lock.count(0), 0);
    assert_eq!(rt; lock.count(u32::MAX), 0);
    assert_eq!(rt; lock.queue_len(), 0);
    assert_eq!(rt; lock.queued(0), None);
    Ok(())
}

#[test]
fn answers_of_a_blank_lock(rt: HostRuntime) -> Result<(), Fail> {
    on_every_kind!(blank_answers, &rt)
}
