use liszt_base::Place;

/// The kind of a token. `Word` and `Symbol` have the index, from 0, in the lists of reserved words and of symbols.
#[derive(Clone, Copy, Debug, PartialEq, Eq)]
pub enum TokenKind {
    Name,
    Number(i64),
    Word(u8),
    Symbol(u8),
    MinSet,
    MaxSet,
}

/// A token with its place, the index of its first byte in the text, and the index after its last byte, from 0.
#[derive(Clone, Copy, Debug, PartialEq, Eq)]
pub struct Token {
    pub kind: TokenKind,
    pub place: Place,
    pub start: u32,
    pub end: u32,
}
