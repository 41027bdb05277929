//! The stencils of programs on meshes.

use crate::reading::{checked_program, mesh_of};
use crate::stencil_rows::{ROWS, TWO_COMPREHENSIONS};
use liszt_base::{LimitFault, Mode, Op, PlainList, Refused};
use mesh_topology::Mesh;
use phase_types::Checked;
use std::alloc::{AllocError, Global};
use std::test::Fail;
use stencil_infer::{AccessLists, Stencils, infer, infer_all};

/// The stencils of the last comprehension of a program.
fn last_stencils(alloc: Global, c: &Checked, m: &Mesh) -> Result<Stencils, Refused<LimitFault>> {
    let count = c.comps();
    if count == 0 {
        return Err(Refused::NoMemory);
    }
    infer(alloc, c, m, count - 1)
}

/// The sign of a mode.
fn sign(mode: Mode) -> &'static str {
    match mode {
        Mode::Read => "r",
        Mode::Write => "w",
        Mode::Reduce(Op::Add) => "+",
        Mode::Reduce(Op::Mul) => "*",
        Mode::Reduce(Op::And) => "&",
        Mode::Reduce(Op::Or) => "|",
        Mode::Reduce(Op::Xor) => "^",
        Mode::Reduce(Op::Min) => "<",
        Mode::Reduce(Op::Max) => ">",
    }
}

/// Lists of accesses, between strokes.
fn text_of(alloc: Global, lists: &AccessLists) -> Result<String, AllocError> {
    let mut text = String::new(alloc);
    for index in 0..lists.len() {
        if index > 0 {
            text.push_str("/")?;
        }
        let mut gap = "";
        for access in lists.of(index) {
            let spot = access.spot;
            let (field, id, sign) = (spot.field, spot.id, sign(access.mode));
            text.push_str(format!(in alloc; "{gap}{field}.{id}{sign}")?.as_str())?;
            gap = " ";
        }
    }
    Ok(text)
}

/// The stencils of the last comprehension of a text, or `None` if it has none.
fn stencils_of(alloc: Global, mesh: &Mesh, program: &str) -> Option<Stencils> {
    match checked_program(alloc, program) {
        Ok(checked) => last_stencils(alloc, &checked, mesh).ok(),
        Err(_) => None,
    }
}

/// The stencils of a program on a mesh of points and cells.
fn mesh_stencils(alloc: Global, points: &str, cells: &str, program: &str) -> Option<Stencils> {
    let points = points.parse::<u32>().unwrap_or(0);
    match mesh_of(alloc, points, cells) {
        Ok(mesh) => stencils_of(alloc, &mesh, program),
        Err(_) => None,
    }
}

/// The visits and the stencils of a comprehension.
fn stencils_text(alloc: Global, stencils: &Stencils) -> Result<String, AllocError> {
    let visits = stencils.visits();
    let text = text_of(alloc, stencils.lists())?;
    format!(in alloc; "{visits}:{text}")
}

/// The visits and the stencils of the last comprehension of a program on a mesh.
fn row_text(alloc: Global, points: &str, cells: &str, program: &str) -> Result<String, AllocError> {
    let Some(stencils) = mesh_stencils(alloc, points, cells, program) else {
        return Ok(String::new(alloc));
    };
    stencils_text(alloc, &stencils)
}

/// The visits and the stencils of each row.
#[test]
fn stencils_of_programs(rt: HostRuntime) -> Result<(), Fail> {
    let mut rows = 0usize;
    for row in ROWS.split('\n') {
        let mut parts = row.split('~');
        let name = parts.next().unwrap_or("");
        let points = parts.next().unwrap_or("");
        let cells = parts.next().unwrap_or("");
        let program = parts.next().unwrap_or("");
        let expected = parts.next().unwrap_or("");
        let text = row_text(rt.alloc(), points, cells, program)?;
        assert!(&rt; text.as_str() == expected, "{name}");
        rows = rows.saturating_add(1);
    }
    assert_eq!(&rt; rows, 12);
    Ok(())
}

/// The stencils of all comprehensions of a text, or `None` if they cannot be inferred.
fn all_stencils(alloc: Global, mesh: &Mesh, program: &str) -> Option<PlainList<Stencils>> {
    match checked_program(alloc, program) {
        Ok(checked) => infer_all(alloc, &checked, mesh).ok(),
        Err(_) => None,
    }
}

/// The visits and the stencils of all comprehensions of a program on a cell of four points, a line for each.
fn all_text(alloc: Global, program: &str) -> Result<String, AllocError> {
    let mut text = String::new(alloc);
    let Ok(mesh) = mesh_of(alloc, 4, "0 1 2 3") else {
        return Ok(text);
    };
    let Some(all) = all_stencils(alloc, &mesh, program) else {
        return Ok(text);
    };
    for stencils in all.as_slice() {
        text.push_str(stencils_text(alloc, stencils)?.as_str())?;
        text.push('\n')?;
    }
    Ok(text)
}

/// The stencils of two comprehensions, in the order of the text.
#[test]
fn stencils_of_two_comprehensions(rt: HostRuntime) -> Result<(), Fail> {
    let text = all_text(rt.alloc(), TWO_COMPREHENSIONS)?;
    assert_eq!(&rt;
        text.as_str(),
        "3:6.0w\n20:6.0r 7.0w/6.0r 7.1w/6.0r 7.2w/6.0r 7.3w\n"
    );
    Ok(())
}
