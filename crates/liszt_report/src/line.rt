ghost use Rattle.std.specs.Prelude.{◌≡◌, ◌+◌, ◌≤◌, [], ◌++◌, length};
ghost use Rattle.std.specs.Fmt.{decimal};
ghost use Rattle.liszt_report.specs.declared.ended.Ended.TheVariants.{Program as OfProgram, Mesh as OfMesh, Trap as OfTrap};
ghost use Rattle.liszt_report.specs.Endings.{ending_text, limit_line, limit_word, comprehension_text, place_text, site_text};

use crate::ended::Ended;
use crate::word::{input_word, kind_word, mesh_file_word, mesh_word, program_word, trap_word};
use liszt_base::{Elem, LimitWhat, MeshFault, Place, ProgramFault, Trap};
use text_scan::LineBuf;

/// Replaces the buffer's bytes with the line of an ending. `Done` and `WriteFault` have none.
pub fn set_ending(line: &mut LineBuf, ended: Ended)
    ensures { line.new ≡ ending_text ended }
{
    line.clear();
    match ended {
        Ended::Usage => line.text(
            b"usage: liszt_run MODE PROGRAM NODE ELE [--workers N] [--ranks N] [--parts NAME] [--turns L] or self N\n",
        ),
        Ended::Program(fault) => append_program_fault(line, fault),
        Ended::Mesh(fault) => append_mesh_fault(line, fault),
        Ended::Limit(fault) => append_limit(line, fault.what, fault.allowed),
        Ended::Trap(trap) => append_trap(line, trap),
        Ended::ReadFault(input) => {
            line.text(b"read fault ");
            line.text(input_word(input));
            line.text(b"\n");
        }
        Ended::NoMemory => line.text(b"no memory\n"),
        Ended::Done | Ended::WriteFault => {}
    }
}

/// Appends the fault's line to an empty buffer.
fn append_program_fault(line: &mut LineBuf, fault: ProgramFault)
    requires { line.old ≡ [] }
    ensures { line.new ≡ ending_text (OfProgram fault) }
{
    line.text(b"program ");
    line.text(program_word(fault.what));
    line.text(b" ");
    append_place(line, fault.place);
    if let Some(first) = fault.first {
        line.text(b" first ");
        append_place(line, first);
    }
    line.text(b"\n");
}

/// Appends `LINE:COL`.
fn append_place(line: &mut LineBuf, place: Place)
    requires { length line.old ≤ 100 }
    ensures text { line.new ≡ line.old ++ place_text place }
    ensures short { length line.new ≤ length line.old + 41 }
{
    line.count(u64::from(place.line));
    line.text(b":");
    line.count(u64::from(place.col));
}

/// Appends the fault's line to an empty buffer.
fn append_mesh_fault(line: &mut LineBuf, fault: MeshFault)
    requires { line.old ≡ [] }
    ensures { line.new ≡ ending_text (OfMesh fault) }
{
    line.text(b"mesh ");
    line.text(mesh_file_word(fault.file));
    line.text(b" ");
    line.text(mesh_word(fault.what));
    line.text(b" line ");
    line.count(u64::from(fault.line));
    line.text(b"\n");
}

/// Appends the trap's line to an empty buffer.
fn append_trap(line: &mut LineBuf, trap: Trap)
    requires { line.old ≡ [] }
    ensures { line.new ≡ ending_text (OfTrap trap) }
{
    line.text(b"trap ");
    line.text(trap_word(trap.kind));
    line.text(b" ");
    append_place(line, trap.place);
    line.text(b" ");
    append_site(line, trap.elem);
    line.text(b"\n");
}

/// Appends the kind word and the id of an element, or `main`.
fn append_site(line: &mut LineBuf, elem: Option<Elem>)
    requires { length line.old ≤ 100 }
    ensures text { line.new ≡ line.old ++ site_text elem }
    ensures short { length line.new ≤ length line.old + 30 }
{
    match elem {
        Some(elem) => {
            line.text(kind_word(elem.kind));
            line.text(b" ");
            line.count(u64::from(elem.id));
        }
        None => line.text(b"main"),
    }
}

/// Appends the limit's line to an empty buffer.
fn append_limit(line: &mut LineBuf, what: LimitWhat, allowed: u64)
    requires { line.old ≡ [] }
    ensures { line.new ≡ limit_line what allowed }
{
    line.text(b"limit ");
    append_limit_word(line, what);
    line.text(b" over ");
    line.count(allowed);
    line.text(b"\n");
}

/// Appends the words for what has a limit.
fn append_limit_word(line: &mut LineBuf, what: LimitWhat)
    requires { length line.old ≤ 100 }
    ensures text { line.new ≡ line.old ++ limit_word what }
    ensures short { length line.new ≤ length line.old + 40 }
{
    match what {
        LimitWhat::File(input) => {
            line.text(b"File ");
            line.text(input_word(input));
        }
        LimitWhat::Points => line.text(b"Points"),
        LimitWhat::Cells => line.text(b"Cells"),
        LimitWhat::Tokens => line.text(b"Tokens"),
        LimitWhat::Visits(comprehension) => {
            line.text(b"Visits");
            append_comprehension(line, comprehension);
        }
        LimitWhat::Entries(comprehension) => {
            line.text(b"Entries");
            append_comprehension(line, comprehension);
        }
        LimitWhat::Words => line.text(b"Words"),
        LimitWhat::Kept(comprehension) => {
            line.text(b"Kept");
            append_comprehension(line, comprehension);
        }
    }
}

/// Appends a word and a count.
pub fn append_counted(line: &mut LineBuf, word: &[u8], count: u32)
    requires old { length line.old ≤ 200 }
    requires word { length word.now ≤ 16 }
    ensures text { line.new ≡ line.old ++ (word.now ++ decimal count) }
    ensures short { length line.new ≤ length line.old + length word.now + 20 }
{
    line.text(word);
    line.count(u64::from(count));
}

/// Appends ` comp K`.
fn append_comprehension(line: &mut LineBuf, comprehension: u32)
    requires { length line.old ≤ 110 }
    ensures text { line.new ≡ line.old ++ comprehension_text comprehension }
    ensures short { length line.new ≤ length line.old + 26 }
{
    append_counted(line, b" comp ", comprehension);
}
