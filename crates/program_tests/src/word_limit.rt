//! The limit of the words of declared fields.

use crate::reading::{checked_program, mesh_of};
use liszt_base::{LimitFault, LimitWhat, Refused, WORD_LIMIT};
use seq_meaning::SeqStore;
use std::alloc::{AllocError, Global};
use std::test::Fail;

/// A program with 4,096 fields on vertices.
fn fields_text(alloc: Global) -> Result<String, AllocError> {
    let mut text = String::new(alloc);
    for number in 0u32..4096 {
        text.push_str(format!(in alloc; "field A{number} : Vertex = 0;\n")?.as_str())?;
    }
    Ok(text)
}

/// Prepares a store of a program's words on 4,096 vertices and one cell. An `Err` is the limit that they pass, or nothing where something
/// else is refused.
fn prepare(alloc: Global, program: &str) -> Result<(), Option<LimitFault>> {
    let Ok(mesh) = mesh_of(alloc, 4096, "0 1 2 3") else {
        return Err(None);
    };
    let Ok(checked) = checked_program(alloc, program) else {
        return Err(None);
    };
    match SeqStore::prepare(alloc, &checked, &mesh) {
        Ok(_) => Ok(()),
        Err(Refused::Fault(fault)) => Err(Some(fault)),
        Err(Refused::NoMemory) => Err(None),
    }
}

/// As many words as are allowed, and one more.
#[test]
fn words_at_their_limit(rt: HostRuntime) -> Result<(), Fail> {
    let mut text = fields_text(rt.alloc())?;
    assert!(&rt; prepare(rt.alloc(), text.as_str()) == Ok(()));
    text.push_str("field B : Cell = 0;\n")?;
    let fault = LimitFault {
        what: LimitWhat::Words,
        allowed: u64::from(WORD_LIMIT),
        found: u64::from(WORD_LIMIT) + 1,
    };
    assert!(&rt; prepare(rt.alloc(), text.as_str()) == Err(Some(fault)));
    Ok(())
}
