//! Programs and meshes from their texts.

ghost use Rattle.std.specs.Prelude.{◌≤◌, ◌<◌, ◌^◌, IfOk, length};
ghost use Rattle.liszt_base.specs.Limits.{token_limit};
ghost use Rattle.liszt_tree.specs.Tree.{program_tree};
ghost use Rattle.phase_types.specs.Checked.{item_count};

use liszt_base::{MeshFault, ProgramFault, Refused};
use liszt_lexer::tokens;
use liszt_parser::parse;
use liszt_tree::Program;
use mesh_topology::Mesh;
use phase_types::{Checked, check};
use std::alloc::{AllocError, Global};
use tet_reader::read_mesh;

/// The program that a text spells.
fn read_program(alloc: Global, text: &[u8]) -> Result<Program, Refused<ProgramFault>>
    requires { length text.now < 2 ^ 31 }
    ensures { IfOk result (λ program. item_count (program_tree program) ≤ token_limit) }
{
    let tokens = tokens(alloc, text)?;
    parse(alloc, text, &tokens)
}

/// The checked program of the first 200,000 bytes of a text.
pub fn checked_program(alloc: Global, text: &str) -> Result<Checked, Refused<ProgramFault>> {
    let bytes = text.as_bytes();
    let program = read_program(alloc, &bytes[..bytes.len().min(200_000)])?;
    check(alloc, &program)
}

/// A node file of points at one place.
fn node_text(alloc: Global, points: u32) -> Result<String, AllocError> {
    let mut text = format!(in alloc; "{points} 3 0 0\n")?;
    for id in 0..points {
        text.push_str(format!(in alloc; "{id} 0 0 0\n")?.as_str())?;
    }
    Ok(text)
}

/// An ele file of cells between strokes.
fn ele_text(alloc: Global, cells: &str) -> Result<String, AllocError> {
    let mut rows = String::new(alloc);
    let mut count = 0u32;
    for cell in cells.split('/').filter(|cell| !cell.is_empty()) {
        rows.push_str(format!(in alloc; "{count} {cell}\n")?.as_str())?;
        count = count.saturating_add(1);
    }
    format!(in alloc; "{count} 4 0\n{rows}")
}

/// The mesh of the first hundred thousand bytes of two texts, if it has at most 5,000 points and cells.
fn read_short_mesh(alloc: Global, node: &[u8], ele: &[u8]) -> Result<Mesh, Refused<MeshFault>> {
    let node = &node[..node.len().min(100_000)];
    let ele = &ele[..ele.len().min(100_000)];
    let raw = read_mesh(alloc, node, ele)?;
    if raw.points().len() > 5000 || raw.cells().len() > 5000 {
        return Err(Refused::NoMemory);
    }
    Ok(Mesh::build(alloc, raw)?)
}

/// The mesh of at most 5,000 points, and cells between strokes.
pub fn mesh_of(alloc: Global, points: u32, cells: &str) -> Result<Mesh, Refused<MeshFault>> {
    let Ok(node) = node_text(alloc, points.min(5000)) else {
        return Err(Refused::NoMemory);
    };
    let Ok(ele) = ele_text(alloc, cells) else {
        return Err(Refused::NoMemory);
    };
    read_short_mesh(alloc, node.as_bytes(), ele.as_bytes())
}
