ghost use Rattle.std.specs.Prelude.{◌≡◌, ◌+◌, ◌<◌, ◌≤◌, ◌++◌, length};
ghost use Rattle.std.specs.Fmt.{decimal};
ghost use Rattle.liszt_io.specs.Causes.{HasCause};
ghost use Rattle.liszt_io.specs.Sinks.{Writes};
ghost use Rattle.mesh_topology.specs.Elements.{count};
ghost use Rattle.phase_types.specs.Checked.{checked_mode};
ghost use Rattle.liszt_report.specs.Texts.{check_text, comprehension_phases, counts_line, phase_line, phases_text, subject_name as SubjectName, subject_text};

use crate::field_names::field_name;
use crate::line::append_counted;
use crate::named::write_named;
use crate::places::{next_phase, subject_at};
use crate::word::mode_word;
use liszt_base::{Kind, Mode};
use liszt_io::{Sink, WriteFault, write_whole};
use mesh_topology::Mesh;
use phase_types::Checked;
use resolved_code::Subject;
use sqlite_items::at;
use text_scan::LineBuf;

/// Writes the canonical text `text`, the phases of each comprehension, and the counts of elements. Flushes nothing.
pub fn write_check<S: Sink>(
    out: &mut S,
    text: &[u8],
    c: &Checked,
    m: &Mesh,
) -> Result<(), WriteFault>
    ensures cause { HasCause (S.faults out.old) (S.faults out.new) result }
    ensures writes { Writes (check_text text.now c.now (count m.now)) (S.output out.old)
        (S.output out.new) result }
{
    write_whole(out, text)?;
    write_phases(out, c)?;
    write_counts(out, m)
}

/// Writes the phases of each comprehension, in the order of the text.
fn write_phases<S: Sink>(out: &mut S, c: &Checked) -> Result<(), WriteFault>
    ensures cause { HasCause (S.faults out.old) (S.faults out.new) result }
    ensures writes { Writes (phases_text c.now) (S.output out.old) (S.output out.new) result }
{
    for comp in 0..c.comps() {
        write_comprehension(out, c, comp)?;
    }
    Ok(())
}

/// Writes the phases of a comprehension: of the fields and then of the scalars that it accesses, ascending.
fn write_comprehension<S: Sink>(out: &mut S, c: &Checked, comp: u32) -> Result<(), WriteFault>
    requires { comp < length c.now.comprehensions }
    ensures cause { HasCause (S.faults out.old) (S.faults out.new) result }
    ensures writes { Writes (comprehension_phases c.now comp) (S.output out.old) (S.output out.new)
        result }
{
    c.is_checked();
    let fields = c.fields().len() as u32 + 6;
    let end = fields + c.scalars().len() as u32;
    let mut place = next_phase(c, comp, fields, 0, end);
    while place < end {
        write_subject(out, c, comp, subject_at(fields, place))?;
        place = next_phase(c, comp, fields, place + 1, end);
    }
    Ok(())
}

/// Writes the line of a field or scalar, if the comprehension accesses it.
fn write_subject<S: Sink>(
    out: &mut S,
    c: &Checked,
    comp: u32,
    subject: Subject,
) -> Result<(), WriteFault>
    ensures cause { HasCause (S.faults out.old) (S.faults out.new) result }
    ensures writes { Writes (subject_text c.now comp subject) (S.output out.old) (S.output out.new)
        result }
{
    match subject_mode(c, comp, subject) {
        Some(mode) => write_phase(out, comp, subject_name(c, subject), mode),
        None => Ok(()),
    }
}

/// Writes `phase COMP NAME MODE`.
fn write_phase<S: Sink>(out: &mut S, comp: u32, name: &[u8], mode: Mode) -> Result<(), WriteFault>
    ensures cause { HasCause (S.faults out.old) (S.faults out.new) result }
    ensures writes { Writes (phase_line comp name.now mode) (S.output out.old) (S.output out.new)
        result }
{
    let mut head = LineBuf::new();
    append_counted(&mut head, b"phase ", comp);
    head.text(b" ");
    let mut tail = LineBuf::new();
    tail.text(b" ");
    tail.text(mode_word(mode));
    tail.text(b"\n");
    write_named(out, head.bytes(), name, tail.bytes())
}

/// The mode of a comprehension's accesses to a field or scalar, if it has any.
fn subject_mode(c: &Checked, comp: u32, subject: Subject) -> Option<Mode>
    ensures { result ≡ checked_mode c.now comp subject }
{
    match subject {
        Subject::Field(field) => c.mode(comp, field),
        Subject::Scalar(scalar) => c.scalar_mode(comp, scalar),
    }
}

/// The name of a field or scalar.
fn subject_name(c: &Checked, subject: Subject) -> &[u8]
    ensures { result.now ≡ SubjectName c.now subject }
{
    match subject {
        Subject::Field(field) => field_name(c, field),
        Subject::Scalar(scalar) => match at(c.scalars(), scalar as usize) {
            Some(name) => name.as_slice(),
            None => b"",
        },
    }
}

/// Writes the counts of elements by their kinds.
fn write_counts<S: Sink>(out: &mut S, m: &Mesh) -> Result<(), WriteFault>
    ensures cause { HasCause (S.faults out.old) (S.faults out.new) result }
    ensures writes { Writes (counts_line (count m.now)) (S.output out.old) (S.output out.new) result }
{
    let mut line = LineBuf::new();
    append_counted(&mut line, b"vertices ", m.count(Kind::Vertex));
    append_counted(&mut line, b" edges ", m.count(Kind::Edge));
    append_counted(&mut line, b" faces ", m.count(Kind::Face));
    append_counted(&mut line, b" cells ", m.count(Kind::Cell));
    line.text(b"\n");
    write_whole(out, line.bytes())
}
