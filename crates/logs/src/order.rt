// Whether the entries of a log stand in a lawful order.
ghost use Rattle.std.specs.Prelude.{◌≡◌, []};
ghost use Rattle.faults.specs.Checks.{checked};
ghost use Rattle.logs.specs.Log.{place_fault, order_fault, first_fault};

use crate::entries::LogEntry;
use crate::refusals::LogFault;
use records::{HEADS, Size};

// Whether an entry lies in a record of this size.
fn check_place(size: Size, entry: usize, e: LogEntry) -> Result<(), LogFault>
    ensures { result ≡ checked (place_fault size.heads size.polls entry e) }
{
    let Size { heads, polls } = size;
    let LogEntry { poll, head, .. } = e;
    if poll >= polls {
        return Err(LogFault::PollOutside { entry, poll, polls });
    }
    if head >= heads {
        return Err(LogFault::HeadOutside { entry, head, heads });
    }
    Ok(())
}

// Whether an entry may follow one of the poll `before`, its head having an entry of its poll or not.
fn check_order(entry: usize, before: u32, twice: bool, e: LogEntry) -> Result<(), LogFault>
    ensures { result ≡ checked (order_fault entry before twice e) }
{
    let LogEntry { poll, head, .. } = e;
    if poll < before {
        return Err(LogFault::PollFalls {
            entry,
            poll,
            before,
        });
    }
    if twice {
        return Err(LogFault::HeadTwice { entry, head, poll });
    }
    Ok(())
}

// Whether the entries make a log: the fault of the first entry that has one.
pub(crate) fn check_entries(size: Size, entries: &[LogEntry]) -> Result<(), LogFault>
    ensures { result ≡ checked (first_fault size.heads size.polls 0 [] entries.now) }
{
    // one more than the poll of each head's latest entry, 0 before its first: an option would take twice the room
    let mut stamps = [0u32; HEADS as usize];
    let mut before = 0;
    for (entry, e) in entries.iter().enumerate() {
        check_place(size, entry, *e)?;
        let head = e.head as usize;
        let stamp = e.poll + 1;
        check_order(entry, before, stamps[head] == stamp, *e)?;
        stamps[head] = stamp;
        before = e.poll;
    }
    Ok(())
}
