ghost use Rattle.std.specs.Prelude.{◌≡◌, ℕ, ◌+◌, ◌<◌, ◌≤◌, IsSome, length};
ghost use Rattle.liszt_base.specs.Limits.{token_limit};
ghost use Rattle.liszt_io.specs.Causes.{HasCause};
ghost use Rattle.liszt_io.specs.Sinks.{Writes};
ghost use Rattle.mesh_topology.specs.Elements.{count};
ghost use Rattle.liszt_report.specs.Endings.{value_line, field_text};
ghost use Rattle.liszt_report.specs.FieldValues.{HasOutermost, value_at};
ghost use Rattle.liszt_report.specs.Texts.{declared_text, fields_text};

use crate::named::write_named;
use crate::values::Values;
use liszt_io::{Sink, WriteFault};
use mesh_topology::Mesh;
use phase_types::{Checked, FieldInfo};
use text_scan::LineBuf;

/// Writes the values of each field of the outermost scope, in the order of the text: a line for each id, ascending.
/// Flushes nothing.
pub fn write_fields<S: Sink, V: Values>(
    out: &mut S,
    c: &Checked,
    m: &Mesh,
    v: &mut V,
) -> Result<(), WriteFault>
    requires { HasOutermost (count m.now) c.now.fields (V.values v.old) }
    ensures cause { HasCause (S.faults out.old) (S.faults out.new) result }
    ensures writes { Writes (fields_text (count m.now) (value_at (V.values v.old)) c.now.fields)
        (S.output out.old) (S.output out.new) result }
    ensures unchanged { (field id : ℕ) → V.values v.new field id ≡ V.values v.old field id }
{
    c.is_checked();
    let fields = c.fields();
    for index in 0..fields.len() {
        write_declared(out, m, v, index as u32 + 6, &fields[index])?;
    }
    Ok(())
}

/// Writes the values of a field by its number, if the outermost scope declares it.
fn write_declared<S: Sink, V: Values>(
    out: &mut S,
    m: &Mesh,
    v: &mut V,
    field: u32,
    info: &FieldInfo,
) -> Result<(), WriteFault>
    requires { (id : ℕ) → info.now.scope ≡ 0 → id < count m.now info.now.kind
        → IsSome (V.values v.old field id) }
    ensures cause { HasCause (S.faults out.old) (S.faults out.new) result }
    ensures writes { Writes (declared_text (count m.now) (value_at (V.values v.old)) field info.now)
        (S.output out.old) (S.output out.new) result }
    ensures unchanged { (other id : ℕ) → V.values v.new other id ≡ V.values v.old other id }
{
    if info.scope != 0 {
        return Ok(());
    }
    write_field(out, v, field, info.name.as_slice(), m.count(info.kind))
}

/// Writes the values of a field at the ids below `count`.
fn write_field<S: Sink, V: Values>(
    out: &mut S,
    v: &mut V,
    field: u32,
    name: &[u8],
    count: u32,
) -> Result<(), WriteFault>
    requires { (id : ℕ) → id < count → IsSome (V.values v.old field id) }
    ensures cause { HasCause (S.faults out.old) (S.faults out.new) result }
    ensures writes { Writes (field_text name.now (value_at (V.values v.old) field) count)
        (S.output out.old) (S.output out.new) result }
    ensures unchanged { (other id : ℕ) → V.values v.new other id ≡ V.values v.old other id }
{
    for id in 0..count {
        let value = v.value(field, id);
        write_value(out, name, id, value)?;
    }
    Ok(())
}

/// Writes `NAME ID VALUE`.
fn write_value<S: Sink>(out: &mut S, name: &[u8], id: u32, value: i64) -> Result<(), WriteFault>
    ensures cause { HasCause (S.faults out.old) (S.faults out.new) result }
    ensures writes { Writes (value_line name.now id value) (S.output out.old) (S.output out.new)
        result }
{
    let mut tail = LineBuf::new();
    tail.text(b" ");
    tail.count(u64::from(id));
    tail.text(b" ");
    tail.number(value);
    tail.text(b"\n");
    write_named(out, b"", name, tail.bytes())
}
