//! Single iterations of the comprehension of a program over a mesh.

ghost use Rattle.std.specs.Prelude.{◌≤◌, ◌<◌, ◌^◌, IfOk, length};
ghost use Rattle.liszt_base.specs.Limits.{token_limit};
ghost use Rattle.liszt_tree.specs.Tree.{program_tree};
ghost use Rattle.phase_types.specs.Checked.{item_count};
ghost use Rattle.kernel_eval.specs.Running.{IsPrepared};

use crate::logged::LoggedStore;
use kernel_eval::{Locals, run_iteration};
use liszt_base::{NoMemory, ProgramFault, Refused, RunEnd};
use liszt_lexer::tokens;
use liszt_parser::parse;
use liszt_tree::Program;
use mesh_topology::Mesh;
use phase_types::{Checked, check};
use std::alloc::Global;
use std::process::Abort;
use tet_reader::read_mesh;

/// The mesh of two short texts.
pub fn mesh_of(alloc: Global, node: &[u8], ele: &[u8]) -> Result<Option<Mesh>, NoMemory> {
    if node.len() > 100_000 || ele.len() > 100_000 {
        return Ok(None);
    }
    let Ok(raw) = read_mesh(alloc, node, ele) else {
        return Ok(None);
    };
    if raw.points().len() > 1000 || raw.cells().len() > 1000 {
        return Ok(None);
    }
    Ok(Some(Mesh::build(alloc, raw)?))
}

/// The program of a text.
fn program_of(alloc: Global, text: &[u8]) -> Result<Program, Refused<ProgramFault>>
    requires { length text.now < 2 ^ 31 }
    ensures { IfOk result (λ program. item_count (program_tree program) ≤ token_limit) }
{
    let tokens = tokens(alloc, text)?;
    parse(alloc, text, &tokens)
}

/// The checked program of a short text.
pub fn checked_of(alloc: Global, text: &[u8]) -> Option<Checked> {
    if text.len() > 100_000 {
        return None;
    }
    let Ok(program) = program_of(alloc, text) else {
        return None;
    };
    check(alloc, &program).ok()
}

/// Begins comprehension 0 with these scalars, and runs an iteration of it.
pub fn run_one<'a, R: Abort>(
    c: &Checked,
    m: &Mesh,
    scalars: &[i64],
    id: u32,
    turns: u64,
    store: &mut LoggedStore<'a, R>,
    locals: &mut Locals,
) -> Option<RunEnd>
    requires { IsPrepared c.now locals.old.activation }
{
    if c.comps() == 0 || scalars.len() != c.scalars().len() {
        return None;
    }
    if id >= m.count(c.comp_kind(0)) {
        return None;
    }
    c.is_checked();
    locals.begin(c, 0, scalars);
    Some(run_iteration(c, 0, m, id, turns, store, locals))
}
