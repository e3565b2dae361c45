use archive::{read, write};
use types::{ArchiveWord, Direction, Entry, Outcome, Refusal, Verb};

#[test]
fn words_of_the_layout(rt: HostRuntime) {
    let making = ArchiveWord::Making {
        spin: 255,
        tasks: 64,
    };
    let call = ArchiveWord::Call {
        verb: Verb::Leave,
        task: 63,
    };
    let outcome = ArchiveWord::Outcome(Outcome::Queued(2));
    let notice = ArchiveWord::Notice(Entry {
        task: 1,
        direction: Direction::Write,
    });
    for (word, bits) in [
        (making, 0x1000_ff40),
        (call, 0x2400_003f),
        (outcome, 0x3600_0002),
        (notice, 0x4000_0101),
    ] {
        assert_eq!(rt; write(word), Some(bits));
        assert_eq!(rt; read(bits), Some(word));
    }
}

#[test]
fn words_outside_the_layout(rt: HostRuntime) {
    for bits in [
        0,
        0x1001_0000,
        0x2000_0001,
        0x2100_0040,
        0x3000_0001,
        0x3900_0041,
        0x3a00_0000,
        0x4000_0201,
        0x5000_0001,
        0xffff_ffff,
    ] {
        assert_eq!(rt; read(bits), None);
    }
    for word in [
        ArchiveWord::Call {
            verb: Verb::Move,
            task: 64,
        },
        ArchiveWord::Outcome(Outcome::Passed(65)),
        ArchiveWord::Notice(Entry {
            task: 255,
            direction: Direction::Read,
        }),
    ] {
        assert_eq!(rt; write(word), None);
    }
}

#[test]
fn numbers(rt: HostRuntime) {
    assert_eq!(rt; Refusal::AlreadyMade.number(), 1);
    assert_eq!(rt; Refusal::LeftOver.number(), 14);
    assert_eq!(rt; Refusal::Disagrees.number(), 17);
    assert_eq!(rt; Outcome::Passed(64).number(), 9);
    assert_eq!(rt; Outcome::Passed(64).value(), 64);
}
