ghost use Rattle.std.specs.Prelude.{◌++◌};
ghost use Rattle.liszt_io.specs.Causes.{HasCause};
ghost use Rattle.liszt_io.specs.Sinks.{Writes};

use liszt_io::{Sink, WriteFault, write_whole};

/// Writes the bytes before a name, the name, and the bytes after it. A name has any length.
pub fn write_named<S: Sink>(
    out: &mut S,
    head: &[u8],
    name: &[u8],
    tail: &[u8],
) -> Result<(), WriteFault>
    ensures cause { HasCause (S.faults out.old) (S.faults out.new) result }
    ensures writes { Writes (head.now ++ (name.now ++ tail.now)) (S.output out.old)
        (S.output out.new) result }
{
    write_whole(out, head)?;
    write_whole(out, name)?;
    write_whole(out, tail)
}
