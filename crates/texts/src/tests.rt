// Examples of grids and logs as texts.
use crate::{Defect, GridText, LogText, ReadError, TextFault, is_log, read_grid, read_log};
use logs::LogEntry;

#[test]
fn grids_are_read(rt: HostRuntime) -> Result<(), ReadError> {
    let grid: GridText<i32> = read_grid(rt.alloc(), b"\xef\xbb\xbf5,-40\r\n65536,0")?;
    assert_eq!(rt; [grid.heads, grid.polls], [2, 2]);
    assert_eq!(rt; grid.readings.as_slice(), [5, -40, 65_536, 0].as_slice());
    let grid: GridText<f32> = read_grid(rt.alloc(), b"1.25\n-0.5\n0.00390625000\n4096.00390625\n")?;
    assert_eq!(rt; [grid.heads, grid.polls], [1, 4]);
    assert_eq!(rt;
        grid.readings.as_slice(),
        [1.25, -0.5, 0.00390625, 4096.00390625].as_slice()
    );
    Ok(())
}

#[test]
fn logs_are_read(rt: HostRuntime) -> Result<(), ReadError> {
    let text = b"log 2 3 -0.5\n0,0,7\n2,1,1.25\r\n";
    assert!(rt; is_log(text));
    let log: LogText<f32> = read_log(rt.alloc(), text)?;
    assert_eq!(rt; [log.heads, log.polls], [2, 3]);
    assert_eq!(rt; log.standing, -0.5);
    let last = LogEntry {
        poll: 2,
        head: 1,
        word: 0x3fa0_0000,
    };
    assert_eq!(rt; log.entries.as_slice().last(), Some(&last));
    Ok(())
}

// The refusal of a grid on counts.
fn refusal(rt: &HostRuntime, text: &[u8]) -> Option<ReadError> {
    let grid: Result<GridText<i32>, ReadError> = read_grid(rt.alloc(), text);
    grid.err()
}

#[test]
fn faults_are_placed(rt: HostRuntime) {
    let table: [(&[u8], usize, usize, Defect); 7] = [
        (b"", 1, 1, Defect::EmptyFile),
        (b"1,2\n3\n", 2, 2, Defect::TooFew { wanted: 2 }),
        (b"1,2\n3,4,x\n", 2, 5, Defect::TooMany { wanted: 2 }),
        (b"1,2\r\n\r\n", 2, 1, Defect::Missing),
        (b"1,+2", 1, 3, Defect::NotWhole),
        (b"1\r\r\n", 1, 1, Defect::NotWhole),
        (b"-2147483648\n2147483648", 2, 1, Defect::OutOfRange),
    ];
    for (text, line, column, defect) in table {
        let fault = TextFault {
            line,
            column,
            defect,
        };
        assert_eq!(rt; refusal(&rt, text), Some(ReadError::Text(fault)));
    }
}
