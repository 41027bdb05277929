//! The sequential runs of programs on meshes.

use crate::reading::{checked_program, mesh_of};
use crate::run_rows::RUNS;
use liszt_base::{Kind, RunEnd, Trap, TrapKind};
use mesh_topology::Mesh;
use phase_types::Checked;
use seq_meaning::{SeqStore, run_seq};
use std::alloc::{AllocError, Global};
use std::test::Fail;

/// The word of a trap.
fn trap_word(kind: TrapKind) -> &'static str {
    match kind {
        TrapKind::Overflow => "Overflow",
        TrapKind::ZeroDivide => "ZeroDivide",
        TrapKind::NilElement => "NilElement",
        TrapKind::Spent => "Spent",
        TrapKind::Prints => "Prints",
    }
}

/// The word of a kind.
fn kind_word(kind: Kind) -> &'static str {
    match kind {
        Kind::Vertex => "vertex",
        Kind::Edge => "edge",
        Kind::Face => "face",
        Kind::Cell => "cell",
    }
}

/// A trap, with its place and its element.
fn trap_text(alloc: Global, trap: Trap) -> Result<String, AllocError> {
    let (word, line, col) = (trap_word(trap.kind), trap.place.line, trap.place.col);
    match trap.elem {
        None => format!(in alloc; "{word} {line}:{col} main"),
        Some(elem) => {
            let (kind, id) = (kind_word(elem.kind), elem.id);
            format!(in alloc; "{word} {line}:{col} {kind} {id}")
        }
    }
}

/// The end of a run, and what it printed.
fn end_text(alloc: Global, end: RunEnd, prints: &[i64]) -> Result<String, AllocError> {
    let mut text = String::new(alloc);
    match end {
        RunEnd::Done => text.push_str("done")?,
        RunEnd::Trap(trap) => text.push_str(trap_text(alloc, trap)?.as_str())?,
    }
    let mut gap = ":";
    for print in prints {
        let number = *print;
        text.push_str(format!(in alloc; "{gap}{number}")?.as_str())?;
        gap = " ";
    }
    if prints.is_empty() {
        text.push_str(":")?;
    }
    Ok(text)
}

/// The text of the second of two runs in one store, which begins as the first one does.
fn run_text(alloc: Global, c: &Checked, m: &Mesh, turns: u64) -> Result<String, AllocError> {
    let Ok(mut store) = SeqStore::prepare(alloc, c, m) else {
        return Ok(String::new(alloc));
    };
    run_seq(c, m, turns, &mut store);
    let end = run_seq(c, m, turns, &mut store);
    end_text(alloc, end, store.prints())
}

/// The text of a row's run.
fn row_text(
    alloc: Global,
    points: &str,
    cells: &str,
    turns: &str,
    program: &str,
) -> Result<String, AllocError> {
    let points = points.parse::<u32>().unwrap_or(0);
    let turns = turns.parse::<u64>().unwrap_or(0);
    let Ok(mesh) = mesh_of(alloc, points, cells) else {
        return Ok(String::new(alloc));
    };
    match checked_program(alloc, program) {
        Ok(checked) => run_text(alloc, &checked, &mesh, turns),
        Err(_) => Ok(String::new(alloc)),
    }
}

/// The end and the prints of each row, twice in one store.
#[test]
fn runs_of_programs(rt: HostRuntime) -> Result<(), Fail> {
    let mut rows = 0usize;
    for row in RUNS.split('\n') {
        let mut parts = row.split('~');
        let name = parts.next().unwrap_or("");
        let points = parts.next().unwrap_or("");
        let cells = parts.next().unwrap_or("");
        let turns = parts.next().unwrap_or("");
        let program = parts.next().unwrap_or("");
        let expected = parts.next().unwrap_or("");
        let text = row_text(rt.alloc(), points, cells, turns, program)?;
        assert!(&rt; text.as_str() == expected, "{name}");
        rows = rows.saturating_add(1);
    }
    assert_eq!(&rt; rows, 21);
    Ok(())
}
