ghost use Rattle.liszt_io.specs.Causes.{HasCause};
ghost use Rattle.liszt_io.specs.Sinks.{Writes};
ghost use Rattle.liszt_report.specs.Endings.{ending_text};

use crate::ended::Ended;
use crate::line::set_ending;
use liszt_io::{Sink, WriteFault, write_whole};
use text_scan::LineBuf;

/// Writes the line of an ending, which is empty for `Done` and `WriteFault`. Flushes nothing.
pub fn write_ending<S: Sink>(out: &mut S, ended: &Ended) -> Result<(), WriteFault>
    ensures cause { HasCause (S.faults out.old) (S.faults out.new) result }
    ensures writes { Writes (ending_text ended.now) (S.output out.old) (S.output out.new) result }
{
    let mut line = LineBuf::new();
    set_ending(&mut line, *ended);
    write_whole(out, line.bytes())
}
