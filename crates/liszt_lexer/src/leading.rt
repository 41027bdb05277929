//! The longest piece at the start of a text.
ghost use Rattle.std.specs.Prelude.{◌≡◌, ◌+◌, ◌-◌, ◌^◌, ◌<◌, true, false, None, Some, if◌then◌else◌, nat_lt};
ghost use Rattle.std.specs.Prelude.{length, take, slice_index, codes, pos};
ghost use Rattle.std.specs.Char.{is_ascii_digit};
ghost use Rattle.std.specs.List.{position, prefix_len, list_all};
ghost use Rattle.std.specs.Str.{bytes_eq};
ghost use Rattle.std.specs.Str.Parse.{digits_value};
ghost use Rattle.liszt_lexer.specs.Internal.Leading.{IsLeadingPiece, piece_of, is_in_name, is_in_comment, number_piece, word_piece, symbol_piece};
ghost use Rattle.liszt_lexer.specs.Internal.Leading.{symbol_size, set_kind};
ghost use Rattle.liszt_lexer.specs.Lexer.{is_blank, is_letter};
ghost use Rattle.liszt_lexer.specs.Words.{reserved_words, symbols};

use crate::token::TokenKind;
use liszt_base::{NAME_LIMIT, ProgramWhat};

/// A piece of a text: a gap, which is a blank or a comment; a token; or a fault.
#[derive(Clone, Copy, Debug, PartialEq, Eq)]
pub enum FoundPiece {
    Gap,
    Token(TokenKind),
    Fault(ProgramWhat),
}

/// The piece at the start of a text, and its number of bytes.
#[derive(Clone, Copy, Debug, PartialEq, Eq)]
pub struct LeadingPiece {
    pub size: usize,
    pub content: FoundPiece,
}

/// The reserved words, in the order of their indices.
const RESERVED_WORDS: [&[u8]; 31] = [
    b"field",
    b"var",
    b"val",
    b"if",
    b"else",
    b"while",
    b"for",
    b"print",
    b"mesh",
    b"min",
    b"max",
    b"Vertex",
    b"Edge",
    b"Face",
    b"Cell",
    b"head",
    b"tail",
    b"inside",
    b"outside",
    b"flip",
    b"towards",
    b"vertices",
    b"edges",
    b"faces",
    b"cells",
    b"edges_ccw",
    b"valid",
    b"ID",
    b"def",
    b"return",
    b"boundary",
];

/// The symbols, in the order of their indices.
const SYMBOLS: [&[u8]; 29] = [
    b"(", b")", b"{", b"}", b",", b";", b":", b"<-", b"==", b"!=", b"<=", b">=", b"<", b">", b"&&",
    b"||", b"+", b"-", b"*", b"/", b"%", b"!", b"=", b"+=", b"-=", b"*=", b"&=", b"|=", b"^=",
];

/// The longest piece at the start of a text, or a fault of one byte where no piece starts there.
pub fn leading_piece(text: &[u8]) -> LeadingPiece
    requires { 0 < length text.now }
    ensures { IsLeadingPiece text.now result.size (piece_of result.content) }
{
    let first = text[0];
    if is_blank(first) {
        LeadingPiece {
            size: 1,
            content: FoundPiece::Gap,
        }
    } else if first.is_ascii_digit() {
        leading_number(text)
    } else if is_letter(first) {
        leading_word(text)
    } else if text.starts_with(b"//") {
        leading_comment(text)
    } else {
        leading_symbol(text)
    }
}

/// Whether the byte is a blank or the end of a line.
fn is_blank(byte: u8) -> bool
    ensures { result ≡ is_blank byte }
{
    matches!(byte, b' ' | b'\t' | b'\r' | b'\n')
}

/// Whether the byte is a letter or `_`.
fn is_letter(byte: u8) -> bool
    ensures { result ≡ is_letter byte }
{
    byte.is_ascii_alphabetic() || byte == b'_'
}

/// Whether the byte may follow the first byte of a name.
fn is_in_name(byte: u8) -> bool
    ensures { result ≡ is_in_name byte }
{
    is_letter(byte) || byte.is_ascii_digit()
}

/// The number of bytes before the end of the line.
fn comment_size(text: &[u8]) -> usize
    ensures { result ≡ prefix_len is_in_comment text.now }
{
    text.iter().take_while(|b| **b != b'\n').count()
}

/// The number of digits at the start of a text.
fn digits_size(text: &[u8]) -> usize
    ensures { result ≡ prefix_len is_ascii_digit text.now }
{
    text.iter().take_while(|b| b.is_ascii_digit()).count()
}

/// The number of bytes of a name at the start of a text.
fn name_size(text: &[u8]) -> usize
    ensures { result ≡ prefix_len is_in_name text.now }
{
    text.iter().take_while(|b| is_in_name(**b)).count()
}

/// The index of a reserved word.
fn reserved_word(name: &[u8]) -> Option<usize>
    ensures { result ≡ position (bytes_eq name.now) reserved_words }
{
    RESERVED_WORDS.iter().position(|&word| word == name)
}

/// The index of a symbol.
fn symbol(bytes: &[u8]) -> Option<usize>
    ensures { result ≡ position (bytes_eq bytes.now) symbols }
{
    SYMBOLS.iter().position(|&symbol| symbol == bytes)
}

/// The value of digits, if it is below 2^63.
fn value_of(digits: &[u8]) -> Option<i64>
    requires { list_all is_ascii_digit digits.now ≡ true }
    ensures { result ≡ (if nat_lt (digits_value 10 digits.now) (2 ^ 63)
        then Some (pos (digits_value 10 digits.now)) else None) }
{
    let mut value = 0u64;
    for byte in digits {
        let digit = u64::from(*byte - b'0');
        if value > (i64::MAX as u64 - digit) / 10 {
            return None;
        }
        value = value * 10 + digit;
    }
    Some(value as i64)
}

/// The number that the digits write, or `LongNumber`.
fn number_piece(digits: &[u8]) -> FoundPiece
    requires { list_all is_ascii_digit digits.now ≡ true }
    ensures { result ≡ number_piece digits.now }
{
    match value_of(digits) {
        Some(value) => FoundPiece::Token(TokenKind::Number(value)),
        None => FoundPiece::Fault(ProgramWhat::LongNumber),
    }
}

/// The number at the start of `text`, or `LongNumber`.
fn leading_number(text: &[u8]) -> LeadingPiece
    requires some { 0 < length text.now }
    requires digit { is_ascii_digit (slice_index text.now 0) ≡ true }
    ensures { IsLeadingPiece text.now result.size (piece_of result.content) }
{
    let size = digits_size(text);
    LeadingPiece {
        size,
        content: number_piece(&text[..size]),
    }
}

/// `min=` or `max=`, if the text starts with one of them.
fn leading_set(text: &[u8]) -> Option<TokenKind>
    ensures { result ≡ set_kind (take 4 text.now) }
{
    if text.starts_with(b"min=") {
        Some(TokenKind::MinSet)
    } else if text.starts_with(b"max=") {
        Some(TokenKind::MaxSet)
    } else {
        None
    }
}

/// The reserved word or the name that these bytes are, or `LongName`.
fn word_piece(name: &[u8]) -> FoundPiece
    ensures { result ≡ word_piece name.now }
{
    match reserved_word(name) {
        Some(place) => FoundPiece::Token(TokenKind::Word(place as u8)),
        None if name.len() > NAME_LIMIT => FoundPiece::Fault(ProgramWhat::LongName),
        None => FoundPiece::Token(TokenKind::Name),
    }
}

/// The reserved word, the name, `min=` or `max=` at the start of `text`, or `LongName`.
fn leading_word(text: &[u8]) -> LeadingPiece
    requires some { 0 < length text.now }
    requires letter { is_letter (slice_index text.now 0) ≡ true }
    ensures { IsLeadingPiece text.now result.size (piece_of result.content) }
{
    match leading_set(text) {
        Some(kind) => LeadingPiece {
            size: 4,
            content: FoundPiece::Token(kind),
        },
        None => {
            let size = name_size(text);
            LeadingPiece {
                size,
                content: word_piece(&text[..size]),
            }
        }
    }
}

/// The comment at the start of `text`.
fn leading_comment(text: &[u8]) -> LeadingPiece
    requires { bytes_eq (codes "//") (take 2 text.now) ≡ true }
    ensures { IsLeadingPiece text.now result.size (piece_of result.content) }
{
    LeadingPiece {
        size: comment_size(text),
        content: FoundPiece::Gap,
    }
}

/// 2 where the first two bytes are a symbol, otherwise 1.
fn symbol_size(text: &[u8]) -> usize
    ensures { result ≡ symbol_size text.now }
{
    match text {
        [first, second, ..] if symbol(&[*first, *second]).is_some() => 2,
        _ => 1,
    }
}

/// The symbol that these bytes are, or `BadByte`.
fn symbol_piece(bytes: &[u8]) -> FoundPiece
    ensures { result ≡ symbol_piece bytes.now }
{
    match symbol(bytes) {
        Some(place) => FoundPiece::Token(TokenKind::Symbol(place as u8)),
        None => FoundPiece::Fault(ProgramWhat::BadByte),
    }
}

/// The symbol at the start of `text`, or `BadByte`.
fn leading_symbol(text: &[u8]) -> LeadingPiece
    requires some { 0 < length text.now }
    requires blank { is_blank (slice_index text.now 0) ≡ false }
    requires digit { is_ascii_digit (slice_index text.now 0) ≡ false }
    requires letter { is_letter (slice_index text.now 0) ≡ false }
    requires comment { bytes_eq (codes "//") (take 2 text.now) ≡ false }
    ensures { IsLeadingPiece text.now result.size (piece_of result.content) }
{
    let size = symbol_size(text);
    LeadingPiece {
        size,
        content: symbol_piece(&text[..size]),
    }
}
