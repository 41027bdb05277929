use liszt_base::Op;

/// One act of a worker on the words, each word by its number, from 0. `Read` changes nothing, `Load` puts the word's value into the
/// worker's register, `Put` stores `value`, and `Fold` stores the operator's result on the register and `value`.
#[derive(Clone, Copy, Debug, PartialEq, Eq)]
pub enum Act {
    Read(u32),
    Load(u32),
    Put { word: u32, value: i64 },
    Fold { word: u32, op: Op, value: i64 },
}

/// Whether a worker had an act left at its turn.
#[derive(Clone, Copy, Debug, PartialEq, Eq)]
pub enum Stepped {
    Acted,
    Idle,
}
