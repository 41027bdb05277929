ghost use Rattle.std.specs.Prelude.{◌≡◌, ◌<◌, ◌^◌, IfOk, length};

use crate::{Colours, colour};
use liszt_base::PlainLists;
use std::alloc::{AllocError, Global};
use std::test::Fail;

/// The colours of these lists.
fn coloured(alloc: Global, lists: &[&[u32]]) -> Result<Colours, AllocError>
    requires { length lists.now < 2 ^ 32 }
    ensures { IfOk result (λ colours. length colours ≡ length lists.now) }
{
    let mut touched = PlainLists::new(alloc);
    for list in lists {
        touched.push(list).map_err(|_| AllocError)?;
    }
    colour(alloc, &touched).map_err(|_| AllocError)
}

#[test]
fn no_lists(rt: HostRuntime) -> Result<(), Fail> {
    let colours = coloured(rt.alloc(), &[])?;
    assert_eq!(rt; colours.count(), 0);
    Ok(())
}

#[test]
fn empty_lists_have_the_first_colour(rt: HostRuntime) -> Result<(), Fail> {
    let colours = coloured(rt.alloc(), &[&[], &[], &[]])?;
    assert_eq!(rt; colours.count(), 1);
    assert!(rt; colours.batch(0) == [0, 1, 2].as_slice());
    Ok(())
}

#[test]
fn edges_of_a_tetrahedron(rt: HostRuntime) -> Result<(), Fail> {
    let edges: [&[u32]; 6] = [&[0, 1], &[0, 2], &[0, 3], &[1, 2], &[1, 3], &[2, 3]];
    let colours = coloured(rt.alloc(), &edges)?;
    assert_eq!(rt; colours.count(), 3);
    assert!(rt; colours.batch(0) == [0, 5].as_slice());
    assert!(rt; colours.batch(1) == [1, 4].as_slice());
    assert!(rt; colours.batch(2) == [2, 3].as_slice());
    assert_eq!(rt; colours.colour_of(3), 2);
    assert_eq!(rt; colours.colour_of(4), 1);
    Ok(())
}

#[test]
fn a_star_has_a_colour_for_each_iteration(rt: HostRuntime) -> Result<(), Fail> {
    let star: [&[u32]; 40] = [&[3]; 40];
    let colours = coloured(rt.alloc(), &star)?;
    assert_eq!(rt; colours.count(), 40);
    for i in 0..40 {
        assert_eq!(rt; colours.colour_of(i), i);
        assert!(rt; colours.batch(i) == [i].as_slice());
    }
    Ok(())
}

#[test]
fn a_repeated_number_is_no_conflict(rt: HostRuntime) -> Result<(), Fail> {
    let colours = coloured(rt.alloc(), &[&[7, 7, 2, 7], &[1, 1], &[2, 2]])?;
    assert_eq!(rt; colours.count(), 2);
    assert!(rt; colours.batch(0) == [0, 1].as_slice());
    assert!(rt; colours.batch(1) == [2].as_slice());
    Ok(())
}

#[test]
fn a_great_number(rt: HostRuntime) -> Result<(), Fail> {
    let colours = coloured(rt.alloc(), &[&[1000000], &[0], &[0, 1000000], &[999999]])?;
    assert_eq!(rt; colours.count(), 2);
    assert!(rt; colours.batch(0) == [0, 1, 3].as_slice());
    assert!(rt; colours.batch(1) == [2].as_slice());
    Ok(())
}
