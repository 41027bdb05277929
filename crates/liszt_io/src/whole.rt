ghost use Rattle.std.specs.Prelude.{◌≡◌, ◌≤◌, Some, IfOk, length};
ghost use Rattle.liszt_io.specs.Causes.{HasCause};
ghost use Rattle.liszt_io.specs.Shelves.{Files};
ghost use Rattle.liszt_io.specs.Sinks.{Writes};
ghost use Rattle.liszt_io.specs.Whole.{HasWholeCause, IsWhole};

use crate::outside::{Shelf, Sink, WholeFault, WriteFault};
use liszt_base::ByteList;
use std::alloc::Global;

/// Reads the file of a name whole, unless it has more than `limit` bytes. No byte past the limit is kept.
pub fn read_whole<F: Shelf>(
    alloc: Global,
    shelf: &mut F,
    name: &str,
    limit: usize,
) -> Result<ByteList, WholeFault>
    ensures contents { F.contents shelf.new ≡ F.contents shelf.old }
    ensures cause { HasWholeCause (F.faults shelf.old) (F.faults shelf.new) result }
    ensures short { IfOk result (λ bytes. length bytes ≤ limit) }
    ensures whole { (files : Files) → F.contents shelf.old ≡ Some files
        → IsWhole files name.now limit result (F.tally shelf.old) (F.tally shelf.new) }
{
    let mut bytes = ByteList::new(alloc);
    let mut buffer = [0u8; 65536];
    match shelf.open_name(name) {
        Ok(()) => {}
        Err(_) => return Err(WholeFault::ReadFault),
    }
    loop {
        match shelf.read(&mut buffer) {
            Err(_) => return Err(WholeFault::ReadFault),
            Ok(0) => return Ok(bytes),
            Ok(count) => {
                if count > limit - bytes.as_slice().len() {
                    return Err(WholeFault::TooLong);
                }
                match bytes.extend(&buffer[..count]) {
                    Ok(()) => {}
                    Err(_) => return Err(WholeFault::NoMemory),
                }
            }
        }
    }
}

/// Writes all the bytes, or a prefix of them where the sink fails. Flushes nothing.
pub fn write_whole<S: Sink>(out: &mut S, bytes: &[u8]) -> Result<(), WriteFault>
    ensures cause { HasCause (S.faults out.old) (S.faults out.new) result }
    ensures writes { Writes bytes.now (S.output out.old) (S.output out.new) result }
{
    let mut done = 0;
    while done < bytes.len() {
        match out.write(&bytes[done..]) {
            Ok(count) => done += count,
            Err(_) => return Err(WriteFault),
        }
    }
    Ok(())
}
