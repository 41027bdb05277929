ghost use Rattle.std.specs.Prelude.{◌≡◌, ◌<◌, Some, length, slice_get};
ghost use Rattle.liszt_io.specs.Causes.{HasCause};
ghost use Rattle.liszt_io.specs.Sinks.{Writes};
ghost use Rattle.liszt_report.specs.Texts.{number_line, prints_text};

use liszt_io::{Sink, WriteFault, write_whole};
use text_scan::LineBuf;

/// Writes a line for each number. Flushes nothing.
pub fn write_prints<S: Sink>(out: &mut S, prints: &[i64]) -> Result<(), WriteFault>
    ensures cause { HasCause (S.faults out.old) (S.faults out.new) result }
    ensures writes { Writes (prints_text prints.now) (S.output out.old) (S.output out.new) result }
{
    for index in 0..prints.len() {
        write_number(out, number_at(prints, index))?;
    }
    Ok(())
}

/// The number at an index.
fn number_at(numbers: &[i64], index: usize) -> i64
    requires { index < length numbers.now }
    ensures { slice_get numbers.now index ≡ Some result }
{
    let number = &numbers[index];
    *number
}

/// Writes the line of a number.
fn write_number<S: Sink>(out: &mut S, number: i64) -> Result<(), WriteFault>
    ensures cause { HasCause (S.faults out.old) (S.faults out.new) result }
    ensures writes { Writes (number_line number) (S.output out.old) (S.output out.new) result }
{
    let mut line = LineBuf::new();
    line.number(number);
    line.text(b"\n");
    write_whole(out, line.bytes())
}
