//! Rows of a text that is fed in pieces.

ghost use Rattle.std.specs.Prelude.{◌<◌, length};

use liszt_base::NoMemory;
use std::alloc::Global;
use std::test::Fail;
use text_scan::{Lines, Rows, rows_of};

const TEXT: &[u8] = b"# by hand\r\n2 3 0 0\r\n1 1e-05 -0.0000019 .5 # x\n\n\t2  1 0 0\r";

/// Whether a text of at most a thousand bytes that is fed in pieces of this size has the rows of the whole.
fn pieces_agree(alloc: Global, text: &[u8], size: usize) -> Result<bool, NoMemory> {
    if text.len() > 1000 {
        return Ok(false);
    }
    let whole = rows_of(alloc, text)?;
    let mut lines = Lines::new(alloc);
    let mut count = 0usize;
    for piece in text.chunks(size.max(1)) {
        if count > 1000 || piece.len() > 1000 {
            return Ok(false);
        }
        lines.feed(piece)?;
        count += piece.len();
    }
    Ok(rows_agree(&whole, &lines.finish()?))
}

/// Whether a text of at most a thousand bytes that is fed in two pieces has the rows of the whole.
fn two_pieces_agree(alloc: Global, text: &[u8], place: usize) -> Result<bool, NoMemory> {
    let (front, back) = text.split_at(place.min(text.len()));
    if text.len() > 1000 || front.len() > 1000 || back.len() > 1000 {
        return Ok(false);
    }
    let whole = rows_of(alloc, text)?;
    let mut lines = Lines::new(alloc);
    lines.feed(front)?;
    lines.feed(back)?;
    Ok(rows_agree(&whole, &lines.finish()?))
}

fn rows_agree(a: &Rows, b: &Rows) -> bool {
    if a.len() != b.len() || a.last_line() != b.last_line() {
        return false;
    }
    for place in 0..a.len() {
        if place >= b.len() || !row_agrees(a, b, place) {
            return false;
        }
    }
    true
}

fn row_agrees(a: &Rows, b: &Rows, place: usize) -> bool
    requires first { place < length a.now.rows }
    requires second { place < length b.now.rows }
{
    if a.line(place) != b.line(place) || a.words(place) != b.words(place) {
        return false;
    }
    for number in 0..a.words(place) {
        if number >= b.words(place) || a.word(place, number) != b.word(place, number) {
            return false;
        }
    }
    true
}

/// Whatever the pieces of a text, its rows are the same: pieces of 1, 2, 3 and 7 bytes, and two pieces at every cut.
#[test]
fn pieces_give_the_same_rows(rt: HostRuntime) -> Result<(), Fail> {
    let alloc = rt.alloc();
    for size in [1, 2, 3, 7] {
        let agree = pieces_agree(alloc, TEXT, size)?;
        assert!(&rt; agree, "pieces of {size}");
    }
    for place in 0..TEXT.len() + 1 {
        let agree = two_pieces_agree(alloc, TEXT, place)?;
        assert!(&rt; agree, "cut at {place}");
    }
    Ok(())
}
