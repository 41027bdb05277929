//! Makes the jobs: checks a program, and takes the memory of its run.
ghost use Rattle.std.specs.Prelude.{◌≡◌, ◌≤◌, IfOk, Ok};
ghost use Rattle.liszt_base.specs.Limits.{token_limit};
ghost use Rattle.liszt_report.specs.Texts.{check_text};
ghost use Rattle.liszt_tree.specs.Canonical.{canonical};
ghost use Rattle.liszt_tree.specs.Tree.{program_tree};
ghost use Rattle.mesh_topology.specs.Elements.{count};
ghost use Rattle.phase_types.specs.Checked.{checked_program, item_count};
ghost use Rattle.liszt.specs.Expected.{InfersOn, RunsOn};
ghost use Rattle.liszt.specs.Internal.Steps.{IsNumberable, MakesJob, MakesJobOf, check_job_text, seq_outcome, stencil_outcome};

use crate::job::{CheckJob, Job, SeqJob, StencilJob};
use command_words::Mode;
use liszt_base::{NoMemory, RawMesh, Refused};
use liszt_report::Ended;
use liszt_tree::{Program, print_tree};
use mesh_topology::Mesh;
use phase_types::{Checked, check};
use seq_meaning::{SeqStore, run_seq};
use std::alloc::Global;
use stencil_infer::infer_all;

/// The job of a mode on a typed program and a mesh. An `Err` is the ending for the first fault of a program that is not typed, or of
/// the mode.
pub fn make_job(alloc: Global, mode: Mode, program: &Program, mesh: RawMesh) -> Result<Job, Ended>
    requires items { item_count (program_tree program.now) ≤ token_limit }
    requires mesh { IsNumberable mesh }
    ensures { MakesJob mode (program_tree program.now) mesh result }
{
    let checked = check(alloc, program)?;
    match mode {
        Mode::Check => Ok(Job::Check(check_job(alloc, program, checked, mesh)?)),
        Mode::Stencil => Ok(Job::Stencil(stencil_job(alloc, program, checked, mesh)?)),
        Mode::Seq { turns } => Ok(Job::Seq(seq_job(alloc, program, checked, mesh, turns)?)),
    }
}

/// The job of `check`.
fn check_job(
    alloc: Global,
    program: &Program,
    checked: Checked,
    mesh: RawMesh,
) -> Result<CheckJob, NoMemory>
    requires { IsNumberable mesh }
    ensures { IfOk result (λ job. check_job_text job
        ≡ check_text (canonical (program_tree program.now)) checked (count mesh)) }
{
    let text = print_tree(alloc, program)?;
    let mesh = Mesh::build(alloc, mesh)?;
    Ok(CheckJob {
        text,
        checked,
        mesh,
    })
}

/// The job of `stencil`. An `Err` is out of memory, or a limit that is passed.
fn stencil_job(
    alloc: Global,
    _program: &Program,
    checked: Checked,
    mesh: RawMesh,
) -> Result<StencilJob, Ended>
    requires checked { checked_program (program_tree _program.now) ≡ Ok checked }
    requires mesh { IsNumberable mesh }
    ensures { MakesJobOf stencil_outcome (InfersOn (program_tree _program.now) mesh) result }
{
    let mesh = Mesh::build(alloc, mesh)?;
    match infer_all(alloc, &checked, &mesh) {
        Ok(stencils) => Ok(StencilJob { checked, stencils }),
        Err(Refused::Fault(fault)) => Err(Ended::Limit(fault)),
        Err(Refused::NoMemory) => Err(Ended::NoMemory),
    }
}

/// The job of `seq`: the program is run. An `Err` is out of memory, or the limit of words.
fn seq_job(
    alloc: Global,
    _program: &Program,
    checked: Checked,
    mesh: RawMesh,
    turns: u64,
) -> Result<SeqJob, Ended>
    requires checked { checked_program (program_tree _program.now) ≡ Ok checked }
    requires mesh { IsNumberable mesh }
    ensures { MakesJobOf seq_outcome (RunsOn turns (program_tree _program.now) mesh) result }
{
    let mesh = Mesh::build(alloc, mesh)?;
    let mut store = match SeqStore::prepare(alloc, &checked, &mesh) {
        Ok(store) => store,
        Err(Refused::Fault(fault)) => return Err(Ended::Limit(fault)),
        Err(Refused::NoMemory) => return Err(Ended::NoMemory),
    };
    let end = run_seq(&checked, &mesh, turns, &mut store);
    Ok(SeqJob {
        checked,
        mesh,
        store,
        end,
    })
}
