//! What single iterations load and store, and how they end.

use crate::entry::Logged;
use crate::logged::LoggedStore;
use crate::runs::{checked_of, mesh_of, run_one};
use kernel_eval::Locals;
use liszt_base::{Elem, Kind, NoMemory, Place, RunEnd, Spot, Trap, TrapKind};
use mesh_topology::Mesh;
use phase_types::Checked;
use sqlite_items::Items;
use std::alloc::Global;
use std::process::Abort;
use std::test::Fail;

const NODE: &[u8] = b"4 3 0 0\n0 0 0 0\n1 1 0 0\n2 0 1 0\n3 0 0 1\n";

const ELE: &[u8] = b"1 4 0\n0 0 1 2 3\n";

/// The end of an iteration, its log, and the partial of scalar 0.
#[derive(Drop)]
struct Outcome {
    end: Option<RunEnd>,
    log: Items<Logged>,
    partial: Option<i64>,
}

/// Runs the iteration of an element of the first comprehension of a program, with 5 turns.
fn run_on<R: Abort>(
    rt: &R,
    alloc: Global,
    c: &Checked,
    m: &Mesh,
    scalars: &[i64],
    id: u32,
) -> Result<Outcome, NoMemory> {
    let mut locals = Locals::prepare(alloc, c)?;
    let mut store = LoggedStore {
        rt,
        log: Items::new(alloc),
    };
    let end = run_one(c, m, scalars, id, 5, &mut store, &mut locals);
    Ok(Outcome {
        end,
        log: store.log,
        partial: locals.activation.partials.get(0).copied(),
    })
}

/// Runs the iteration of an element of the first comprehension of the program of a text, over one cell.
fn run<R: Abort>(
    rt: &R,
    alloc: Global,
    text: &str,
    scalars: &[i64],
    id: u32,
) -> Result<Outcome, NoMemory> {
    let m = mesh_of(alloc, NODE, ELE)
        .expect(rt, "no memory")
        .expect(rt, "no mesh");
    let c = checked_of(alloc, text.as_bytes()).expect(rt, "no program");
    run_on(rt, alloc, &c, &m, scalars, id)
}

/// A load of element 0 of a field.
fn load(field: u32, value: i64) -> Logged {
    Logged::Load {
        spot: Spot { field, id: 0 },
        value,
    }
}

/// A store to element 0 of a field.
fn store(field: u32, value: i64) -> Logged {
    Logged::Store {
        spot: Spot { field, id: 0 },
        value,
    }
}

/// The end by a trap of an iteration of cell 0.
fn trap(kind: TrapKind, line: u32, col: u32) -> Option<RunEnd> {
    Some(RunEnd::Trap(Trap {
        kind,
        place: Place { line, col },
        elem: Some(Elem {
            kind: Kind::Cell,
            id: 0,
            flipped: false,
        }),
    }))
}

#[test]
fn a_reduction_loads_and_then_stores(rt: HostRuntime) -> Result<(), Fail> {
    let text = "field A : Cell = 0; for (c <- cells(mesh)) { A(c) += 3; A(c) += 4 }";
    let outcome = run(&rt, rt.alloc(), text, &[], 0)?;
    assert!(rt; outcome.end == Some(RunEnd::Done));
    assert!(rt;
        outcome.log.as_slice() == [load(6, 7), store(6, 10), load(6, 10), store(6, 14)].as_slice()
    );
    Ok(())
}

#[test]
fn a_read_stores_nothing(rt: HostRuntime) -> Result<(), Fail> {
    let text = "field A : Cell = 0; for (c <- cells(mesh)) { var x = A(c) + Region(c) }";
    let outcome = run(&rt, rt.alloc(), text, &[], 0)?;
    assert!(rt; outcome.end == Some(RunEnd::Done));
    assert!(rt; outcome.log.as_slice() == [load(6, 7)].as_slice());
    Ok(())
}

#[test]
fn a_nil_target_traps_after_its_value(rt: HostRuntime) -> Result<(), Fail> {
    let text =
        "field A : Face = 0; field B : Cell = 0;\nfor (f <- faces(mesh)) { B(outside(f)) = A(f) }";
    let outcome = run(&rt, rt.alloc(), text, &[], 0)?;
    assert!(rt; outcome.log.as_slice() == [load(6, 7)].as_slice());
    let is_nil =
        matches!(outcome.end, Some(RunEnd::Trap(trap)) if trap.kind == TrapKind::NilElement);
    assert!(rt; is_nil);
    Ok(())
}

#[test]
fn the_least_number_is_subtracted_modulo_words(rt: HostRuntime) -> Result<(), Fail> {
    let text = "field A : Cell = 0; for (c <- cells(mesh)) { A(c) -= -9223372036854775807 - 1 }";
    let outcome = run(&rt, rt.alloc(), text, &[], 0)?;
    assert!(rt; outcome.end == Some(RunEnd::Done));
    assert!(rt;
        outcome.log.as_slice() == [load(6, 7), store(6, -9_223_372_036_854_775_801)].as_slice()
    );
    Ok(())
}

#[test]
fn an_inner_while_spends_the_turns_of_the_iteration(rt: HostRuntime) -> Result<(), Fail> {
    let text =
        "field A : Cell = 0;\nfor (c <- cells(mesh)) { var i = 0; while (i < 2) { var j = 0;\nwhile (j < 2) { A(c) = j; j += 1 } i += 1 } }";
    let outcome = run(&rt, rt.alloc(), text, &[], 0)?;
    assert!(rt; outcome.end == trap(TrapKind::Spent, 3, 1));
    assert!(rt; outcome.log.as_slice() == [store(6, 0), store(6, 1), store(6, 0)].as_slice());
    Ok(())
}

#[test]
fn locals_are_new_in_each_turn(rt: HostRuntime) -> Result<(), Fail> {
    let text =
        "field A : Cell = 0; for (c <- cells(mesh)) { var i = 0; while (i < 2) { var x = 1; x += i; A(c) = x; i += 1 } }";
    let outcome = run(&rt, rt.alloc(), text, &[], 0)?;
    assert!(rt; outcome.end == Some(RunEnd::Done));
    assert!(rt; outcome.log.as_slice() == [store(6, 1), store(6, 2)].as_slice());
    Ok(())
}

#[test]
fn a_decided_operand_is_not_evaluated(rt: HostRuntime) -> Result<(), Fail> {
    let text =
        "field A : Cell = 0; for (c <- cells(mesh)) { if (1 == 2 && 1 / 0 == 0) { A(c) = 1 } else { A(c) = 2 } }";
    let outcome = run(&rt, rt.alloc(), text, &[], 0)?;
    assert!(rt; outcome.end == Some(RunEnd::Done));
    assert!(rt; outcome.log.as_slice() == [store(6, 2)].as_slice());
    Ok(())
}

#[test]
fn partials_begin_with_the_identity(rt: HostRuntime) -> Result<(), Fail> {
    let text = "var s = 0; for (f <- faces(mesh)) { s min= ID(f) + 5 }";
    let outcome = run(&rt, rt.alloc(), text, &[0], 1)?;
    assert!(rt; outcome.end == Some(RunEnd::Done));
    assert!(rt; outcome.partial == Some(6));
    assert!(rt; outcome.log.as_slice().is_empty());
    Ok(())
}
