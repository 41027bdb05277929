ghost use Rattle.std.specs.Prelude.{◌≡◌, ◌+◌, ◌<◌, ◌≤◌, ◌++◌, Some, length, slice_get};
ghost use Rattle.liszt_io.specs.Causes.{HasCause};
ghost use Rattle.liszt_io.specs.Sinks.{Writes};
ghost use Rattle.liszt_report.specs.Texts.{access_line, comprehension_stencils, element_text, stencil_text};

use crate::field_names::{field_kind_word, field_name};
use crate::line::append_counted;
use crate::named::write_named;
use crate::word::{kind_word, mode_word};
use liszt_base::{Access, Kind, PlainLists};
use liszt_io::{Sink, WriteFault};
use phase_types::Checked;
use text_scan::LineBuf;

/// Writes the stencils of comprehension `k`, one for each iteration: a line for each access, in their order. Flushes nothing.
pub fn write_stencils<S: Sink>(
    out: &mut S,
    c: &Checked,
    k: u32,
    s: &PlainLists<Access>,
) -> Result<(), WriteFault>
    requires { k < length c.now.comprehensions }
    ensures cause { HasCause (S.faults out.old) (S.faults out.new) result }
    ensures writes { Writes (comprehension_stencils c.now k s.now) (S.output out.old)
        (S.output out.new) result }
{
    let over = c.comp_kind(k);
    for id in 0..s.len() {
        write_stencil(out, c, k, over, id, s.of(id))?;
    }
    Ok(())
}

/// Writes a line for each access of an iteration.
fn write_stencil<S: Sink>(
    out: &mut S,
    c: &Checked,
    k: u32,
    over: Kind,
    id: usize,
    accesses: &[Access],
) -> Result<(), WriteFault>
    ensures cause { HasCause (S.faults out.old) (S.faults out.new) result }
    ensures writes { Writes (stencil_text c.now k over id accesses.now) (S.output out.old)
        (S.output out.new) result }
{
    for index in 0..accesses.len() {
        write_access(out, c, k, over, id, access_at(accesses, index))?;
    }
    Ok(())
}

/// The access at an index.
fn access_at(accesses: &[Access], index: usize) -> Access
    requires { index < length accesses.now }
    ensures { slice_get accesses.now index ≡ Some result }
{
    let access = &accesses[index];
    *access
}

/// Writes `stencil COMP KIND ID NAME KIND ID MODE`.
fn write_access<S: Sink>(
    out: &mut S,
    c: &Checked,
    k: u32,
    over: Kind,
    id: usize,
    access: Access,
) -> Result<(), WriteFault>
    ensures cause { HasCause (S.faults out.old) (S.faults out.new) result }
    ensures writes { Writes (access_line c.now k over id access) (S.output out.old)
        (S.output out.new) result }
{
    let mut head = LineBuf::new();
    append_counted(&mut head, b"stencil ", k);
    append_element(&mut head, kind_word(over), id as u64);
    head.text(b" ");
    let mut tail = LineBuf::new();
    append_element(
        &mut tail,
        field_kind_word(c, access.spot.field),
        u64::from(access.spot.id),
    );
    tail.text(b" ");
    tail.text(mode_word(access.mode));
    tail.text(b"\n");
    write_named(
        out,
        head.bytes(),
        field_name(c, access.spot.field),
        tail.bytes(),
    )
}

/// Appends ` KIND ID`, from the word of a kind.
fn append_element(line: &mut LineBuf, word: &[u8], id: u64)
    requires old { length line.old ≤ 100 }
    requires word { length word.now ≤ 16 }
    ensures text { line.new ≡ line.old ++ element_text word.now id }
    ensures short { length line.new ≤ length line.old + length word.now + 22 }
{
    line.text(b" ");
    line.text(word);
    line.text(b" ");
    line.count(id);
}
