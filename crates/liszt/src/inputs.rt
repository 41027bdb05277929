ghost use Rattle.std.specs.Prelude.{◌≡◌, ◌≤◌, ◌<◌, ◌^◌, Some, None, Ok, Err, IfOk, MatchOption, length};
ghost use Rattle.liszt_base.specs.declared.answers.Input.TheVariants.{Program as TheProgram, Node, Ele};
ghost use Rattle.liszt_io.specs.Shelves.{Files};
ghost use Rattle.liszt_report.specs.declared.ended.Ended.TheVariants.{Usage};
ghost use Rattle.command_words.specs.Commands.{command_of};
ghost use Rattle.liszt_base.specs.Limits.{file_limit, token_limit};
ghost use Rattle.liszt_tree.specs.Tree.{program_tree};
ghost use Rattle.phase_types.specs.Checked.{item_count};
ghost use Rattle.liszt.specs.Answers.{IsRunOutcome};
ghost use Rattle.liszt.specs.Expected.{ProgramResult, NodeResult, EleResult};
ghost use Rattle.liszt.specs.Internal.Steps.{HasStepCause, StepGives, IsItself, AreItsRows, IsNumberable, Prepares, ReadsProgram, as_tree, job_outcome};

use crate::job::Job;
use crate::jobs::make_job;
use command_words::command_of;
use liszt_base::{
    ByteList, FILE_LIMIT, Input, PointTable, ProgramFault, RawMesh, Refused, WordList,
};
use liszt_io::{Shelf, WholeFault, read_whole};
use liszt_lexer::tokens;
use liszt_parser::parse;
use liszt_report::Ended;
use liszt_tree::Program;
use std::alloc::Global;
use tet_reader::{read_cells, read_points};
use text_scan::{Rows, rows_of};

/// Reads the three files that the words name, in their order. An `Err` is the ending for the first fault.
pub fn prepare<F: Shelf>(alloc: Global, words: &WordList, shelf: &mut F) -> Result<Job, Ended>
    ensures contents { F.contents shelf.new ≡ F.contents shelf.old }
    ensures cause { HasStepCause (F.faults shelf.old) (F.faults shelf.new) result }
    ensures usage { command_of words.now ≡ None → (result ≡ Err Usage) × (shelf.new ≡ shelf.old) }
    ensures only { result ≡ Err Usage → command_of words.now ≡ None }
    ensures job { IfOk result (λ job. MatchOption (command_of words.now) ⊥ (λ c.
        IsRunOutcome c.mode (job_outcome job).ended (job_outcome job).text)) }
    ensures answers { (files : Files) → F.contents shelf.old ≡ Some files
        → Prepares words.now files (F.tally shelf.old) (F.tally shelf.new) result }
{
    let Some(command) = command_of(alloc, words)? else {
        return Err(Ended::Usage);
    };
    let program = read_program_file(alloc, shelf, command.program)?;
    let points = read_node_file(alloc, shelf, command.node)?;
    let mesh = read_ele_file(alloc, shelf, command.ele, points)?;
    make_job(alloc, command.mode, &program, mesh)
}

/// The program of a file.
fn read_program_file<F: Shelf>(alloc: Global, shelf: &mut F, name: &str) -> Result<Program, Ended>
    ensures contents { F.contents shelf.new ≡ F.contents shelf.old }
    ensures cause { HasStepCause (F.faults shelf.old) (F.faults shelf.new) result }
    ensures not_usage { result ≡ Err Usage → ⊥ }
    ensures few { IfOk result (λ program. item_count (program_tree program) ≤ token_limit) }
    ensures answers { (files : Files) → F.contents shelf.old ≡ Some files
        → StepGives (record { files = files; input = TheProgram; name = name.now }) ProgramResult
        (F.tally shelf.old) (F.tally shelf.new) (as_tree result) }
{
    let bytes = read_bytes(alloc, shelf, name, Input::Program)?;
    Ok(read_program(alloc, bytes.as_slice())?)
}

/// The program that a text spells, or the first fault of its tokens, or else of its grammar.
fn read_program(alloc: Global, text: &[u8]) -> Result<Program, Refused<ProgramFault>>
    requires { length text.now < 2 ^ 31 }
    ensures reads { ReadsProgram text.now result }
    ensures few { IfOk result (λ program. item_count (program_tree program) ≤ token_limit) }
{
    let tokens = tokens(alloc, text)?;
    parse(alloc, text, &tokens)
}

/// The points of a node file.
fn read_node_file<F: Shelf>(alloc: Global, shelf: &mut F, name: &str) -> Result<PointTable, Ended>
    ensures contents { F.contents shelf.new ≡ F.contents shelf.old }
    ensures cause { HasStepCause (F.faults shelf.old) (F.faults shelf.new) result }
    ensures not_usage { result ≡ Err Usage → ⊥ }
    ensures few { IfOk result (λ points. length points.list < 2 ^ 32) }
    ensures answers { (files : Files) → F.contents shelf.old ≡ Some files
        → StepGives (record { files = files; input = Node; name = name.now }) NodeResult
        (F.tally shelf.old) (F.tally shelf.new) result }
{
    let rows = read_rows(alloc, shelf, name, Input::Node)?;
    Ok(read_points(alloc, &rows)?)
}

/// The mesh of an ele file over points.
fn read_ele_file<F: Shelf>(
    alloc: Global,
    shelf: &mut F,
    name: &str,
    points: PointTable,
) -> Result<RawMesh, Ended>
    requires { length points.list < 2 ^ 32 }
    ensures contents { F.contents shelf.new ≡ F.contents shelf.old }
    ensures cause { HasStepCause (F.faults shelf.old) (F.faults shelf.new) result }
    ensures not_usage { result ≡ Err Usage → ⊥ }
    ensures numberable { IfOk result (λ mesh. IsNumberable mesh) }
    ensures answers { (files : Files) → F.contents shelf.old ≡ Some files
        → StepGives (record { files = files; input = Ele; name = name.now }) (EleResult points)
        (F.tally shelf.old) (F.tally shelf.new) result }
{
    let rows = read_rows(alloc, shelf, name, Input::Ele)?;
    Ok(read_cells(alloc, &rows, points)?)
}

/// The rows of a file.
fn read_rows<F: Shelf>(
    alloc: Global,
    shelf: &mut F,
    name: &str,
    input: Input,
) -> Result<Rows, Ended>
    ensures contents { F.contents shelf.new ≡ F.contents shelf.old }
    ensures cause { HasStepCause (F.faults shelf.old) (F.faults shelf.new) result }
    ensures not_usage { result ≡ Err Usage → ⊥ }
    ensures answers { (files : Files) → F.contents shelf.old ≡ Some files
        → StepGives (record { files = files; input = input; name = name.now }) AreItsRows
        (F.tally shelf.old) (F.tally shelf.new) result }
{
    let bytes = read_bytes(alloc, shelf, name, input)?;
    Ok(rows_of(alloc, bytes.as_slice())?)
}

/// The bytes of a file.
fn read_bytes<F: Shelf>(
    alloc: Global,
    shelf: &mut F,
    name: &str,
    input: Input,
) -> Result<ByteList, Ended>
    ensures contents { F.contents shelf.new ≡ F.contents shelf.old }
    ensures cause { HasStepCause (F.faults shelf.old) (F.faults shelf.new) result }
    ensures not_usage { result ≡ Err Usage → ⊥ }
    ensures short { IfOk result (λ bytes. length bytes ≤ file_limit) }
    ensures answers { (files : Files) → F.contents shelf.old ≡ Some files
        → StepGives (record { files = files; input = input; name = name.now }) IsItself
        (F.tally shelf.old) (F.tally shelf.new) result }
{
    match read_whole(alloc, shelf, name, FILE_LIMIT) {
        Ok(bytes) => Ok(bytes),
        Err(WholeFault::ReadFault) => Err(Ended::ReadFault(input)),
        Err(WholeFault::TooLong) => Err(Ended::too_long(input)),
        Err(WholeFault::NoMemory) => Err(Ended::NoMemory),
    }
}
