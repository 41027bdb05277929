//! What the calls answer where memory is there.

use crate::{blocks, read_parts};
use liszt_base::{NoMemory, PartsFault, PartsWhat, Refused};
use std::alloc::Global;
use std::test::Fail;
use text_scan::rows_of;

/// What a parts file over two ranks gives: a rank for each cell, or a fault and its line.
#[derive(Clone, Copy)]
enum Given {
    Parts(&'static [u32]),
    Fault(PartsWhat, u32),
}

/// A text of at most a thousand bytes, the number of cells, and what they give.
#[derive(Clone, Copy)]
struct FileRow(&'static [u8], u32, Given);

const ROWS: [FileRow; 12] = [
    FileRow(b"1\n0\n", 2, Given::Parts(&[1, 0])),
    FileRow(
        b"# ranks\r\n 1 # last\r\n\r\n\t0\r\n-0",
        3,
        Given::Parts(&[1, 0, 0]),
    ),
    FileRow(b"", 0, Given::Parts(&[])),
    FileRow(b"1\n", 2, Given::Fault(PartsWhat::Count, 1)),
    FileRow(b"1\n# end\n\n", 2, Given::Fault(PartsWhat::Count, 3)),
    FileRow(b"", 2, Given::Fault(PartsWhat::Count, 0)),
    FileRow(b"0\n2\n", 2, Given::Fault(PartsWhat::RankRange, 2)),
    FileRow(b"-1\n0\n", 2, Given::Fault(PartsWhat::RankRange, 1)),
    FileRow(b"0 1\n", 2, Given::Fault(PartsWhat::BadNumber, 1)),
    FileRow(b"0\nx\n", 3, Given::Fault(PartsWhat::BadNumber, 2)),
    FileRow(b"0\n1\nx 9\n", 2, Given::Fault(PartsWhat::Count, 3)),
    FileRow(b"\n0\n", 0, Given::Fault(PartsWhat::Count, 2)),
];

/// Whether a parts file gives what its row says.
fn is_given(alloc: Global, row: FileRow) -> Result<bool, NoMemory> {
    let FileRow(text, cells, given) = row;
    if text.len() > 1000 {
        return Ok(false);
    }
    let rows = rows_of(alloc, text)?;
    match (read_parts(alloc, &rows, cells, 2), given) {
        (Ok(parts), Given::Parts(list)) => Ok(parts.as_slice() == list && parts.ranks() == 2),
        (Err(Refused::Fault(fault)), Given::Fault(what, line)) => {
            Ok(fault == PartsFault { what, line })
        }
        (Err(Refused::NoMemory), _) => Err(NoMemory),
        _ => Ok(false),
    }
}

#[test]
fn parts_files_are_read(rt: HostRuntime) -> Result<(), Fail> {
    for row in ROWS {
        let FileRow(_, cells, _) = row;
        let holds = is_given(rt.alloc(), row)?;
        assert!(&rt; holds, "a file of {cells} cells");
    }
    Ok(())
}

#[test]
fn blocks_are_consecutive(rt: HostRuntime) -> Result<(), Fail> {
    let parts = blocks(rt.alloc(), 7, 3)?;
    assert!(rt; parts.as_slice() == [0, 0, 0, 1, 1, 2, 2].as_slice());
    let parts = blocks(rt.alloc(), 0, 16)?;
    assert!(rt; parts.as_slice().is_empty());
    assert!(rt; parts.ranks() == 16);
    Ok(())
}
