ghost use Rattle.std.specs.Prelude.{◌≡◌, IfOk, length};
ghost use Rattle.batch_core.specs.Machine.{AreBelow};

use crate::{Act, ActLists, Core, Stepped};
use liszt_base::{NoMemory, NumbersList, Op};
use std::alloc::{AllocError, Global};
use std::test::Fail;

/// Two workers over words 10 and 20.
fn core_of(alloc: Global, first: &[Act], second: &[Act]) -> Result<Core, NoMemory>
    requires first { AreBelow 2 first.now }
    requires second { AreBelow 2 second.now }
    ensures { IfOk result (λ core. (length core.words ≡ 2) × (length core.workers ≡ 2)) }
{
    let mut words = NumbersList::new(alloc);
    words.push(10)?;
    words.push(20)?;
    let mut acts = ActLists::new(alloc);
    acts.push(alloc, first)?;
    acts.push(alloc, second)?;
    Ok(Core::new(words, acts))
}

fn no_memory(_: NoMemory) -> AllocError {
    AllocError
}

/// Whether both words are as expected after each order of six turns, followed by all acts that remain.
fn ends_with(
    alloc: Global,
    first: &[Act],
    second: &[Act],
    expected: (i64, i64),
) -> Result<bool, AllocError>
    requires first { AreBelow 2 first.now }
    requires second { AreBelow 2 second.now }
{
    for order in 0..64 {
        let mut core = core_of(alloc, first, second).map_err(no_memory)?;
        core.run(&[
            order % 2,
            order / 2 % 2,
            order / 4 % 2,
            order / 8 % 2,
            order / 16 % 2,
            order / 32 % 2,
        ]);
        core.run(&[0, 0, 0, 1, 1, 1]);
        if core.word(0) != expected.0 || core.word(1) != expected.1 {
            return Ok(false);
        }
    }
    Ok(true)
}

#[test]
fn each_order_ends_as_in_sequence(rt: HostRuntime) -> Result<(), Fail> {
    let alloc = rt.alloc();
    let add_5 = Act::Fold {
        word: 0,
        op: Op::Add,
        value: 5,
    };
    let max_7 = Act::Fold {
        word: 1,
        op: Op::Max,
        value: 7,
    };
    let min_7 = Act::Fold {
        word: 1,
        op: Op::Min,
        value: 7,
    };
    let put_3 = Act::Put { word: 0, value: 3 };
    let put_4 = Act::Put { word: 1, value: 4 };
    let load_0 = Act::Load(0);
    let load_1 = Act::Load(1);
    let read_1 = Act::Read(1);
    assert!(rt; ends_with(alloc, &[load_0, add_5], &[load_1, max_7], (15, 20))?);
    assert!(rt; ends_with(alloc, &[load_0, add_5], &[load_1, min_7], (15, 7))?);
    assert!(rt; ends_with(alloc, &[load_0, add_5, put_3], &[load_1, min_7], (3, 7))?);
    assert!(rt; ends_with(alloc, &[put_3, load_0, add_5], &[put_4], (8, 4))?);
    assert!(rt; ends_with(alloc, &[put_3], &[put_4, load_1, max_7], (3, 7))?);
    assert!(rt; ends_with(alloc, &[], &[load_1, min_7, put_4], (10, 4))?);
    assert!(rt; ends_with(alloc, &[], &[], (10, 20))?);
    assert!(rt; ends_with(alloc, &[read_1, put_3], &[read_1], (3, 20))?);
    assert!(rt; ends_with(alloc, &[read_1, load_0, add_5], &[read_1, read_1], (15, 20))?);
    assert!(rt; ends_with(alloc, &[load_0, add_5], &[], (15, 20))?);
    assert!(rt; ends_with(alloc, &[load_0, add_5, load_0], &[load_1], (15, 20))?);
    assert!(rt; ends_with(alloc, &[put_3, read_1], &[], (3, 20))?);
    Ok(())
}

#[test]
fn additions_to_one_word_depend_on_the_order(rt: HostRuntime) -> Result<(), Fail> {
    let add_1 = Act::Fold {
        word: 0,
        op: Op::Add,
        value: 1,
    };
    let acts = [Act::Load(0), add_1];
    let mut core = core_of(rt.alloc(), &acts, &acts).map_err(no_memory)?;
    core.run(&[0, 1, 0, 1]);
    assert_eq!(rt; core.word(0), 11);
    let mut core = core_of(rt.alloc(), &acts, &acts).map_err(no_memory)?;
    core.run(&[0, 0, 1]);
    assert!(rt; core.step(1) == Stepped::Acted);
    assert!(rt; core.step(1) == Stepped::Idle);
    assert_eq!(rt; core.word(0), 12);
    Ok(())
}
