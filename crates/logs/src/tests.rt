// Examples of logs.
use crate::{Log, LogEntry, LogFault};
use records::Record;
use std::test::Fail;

const ENTRIES: [LogEntry; 3] = [
    LogEntry {
        poll: 0,
        head: 0,
        word: 7,
    },
    LogEntry {
        poll: 2,
        head: 1,
        word: 9,
    },
    LogEntry {
        poll: 2,
        head: 0,
        word: 4,
    },
];

// What the head reads at polls 0 to 2.
fn reads<R: Record>(record: &R, head: u32) -> [Option<R::Reading>; 3] {
    [0, 1, 2].map(|poll| record.reading(head, poll))
}

#[test]
fn logs_read(rt: HostRuntime) {
    let entries = ENTRIES;
    let log: Log<i32> = Log::new(2, 3, &entries, 0);
    assert_eq!(rt; reads(&log, 0), [Some(7), Some(7), Some(4)]);
    assert_eq!(rt; reads(&log, 1), [Some(0), Some(0), Some(9)]);
    let mut marks = [0; 2];
    let log: Log<i32> = Log::indexed(2, 3, &entries, 0, &mut marks);
    assert_eq!(rt; reads(&log, 0), [Some(7), Some(7), Some(4)]);
    let floats = [LogEntry {
        poll: 1,
        head: 0,
        word: 0x3fa0_0000,
    }];
    let log: Log<f32> = Log::new(1, 2, &floats, -0.5);
    assert_eq!(rt; reads(&log, 0), [Some(-0.5), Some(1.25), None]);
}

#[test]
fn faults_read(rt: HostRuntime) -> Result<(), Fail> {
    let mut twice = ENTRIES;
    twice[2].head = 1;
    let fault = LogFault::HeadTwice {
        entry: 2,
        head: 1,
        poll: 2,
    };
    assert_eq!(rt; Log::<i32>::check(2, 3, &twice), Err(fault));
    let empty: Log<i32> = Log::new(2, 3, &twice, 0);
    assert_eq!(rt; empty.heads(), 0);
    let text = format!(in rt.alloc(); "{fault}")?;
    assert_eq!(rt;
        text.as_str(),
        "refused by 7, log, at entry 2: its head 1 comes twice in poll 2"
    );
    Ok(())
}
