ghost use Rattle.std.specs.Prelude.{◌≡◌, ◌==◌, ◌<◌, ◌≤◌, [], ◌∷◌, IfSome, IfNone, length, not};
ghost use Rattle.std.specs.List.{before_first, after_first, position_or_len};
ghost use Rattle.text_scan.specs.Rows.{is_blank};
ghost use Rattle.text_scan.specs.Internal.OpenRows.{words_in, content_of};

/// Whether the byte separates words.
fn is_blank(byte: u8) -> bool
    ensures { result ≡ is_blank byte }
{
    byte == b' ' || byte == b'\t'
}

/// The index of the first such byte, or the number of bytes where there is none.
fn byte_position(bytes: &[u8], byte: u8) -> usize
    ensures position { result ≡ position_or_len (λ b. b == byte) bytes.now }
    ensures within { result ≤ length bytes.now }
{
    bytes.iter().position(|b| *b == byte).unwrap_or(bytes.len())
}

/// The index of the first blank, or the number of bytes where there is none.
fn blank_position(bytes: &[u8]) -> usize
    ensures position { result ≡ position_or_len is_blank bytes.now }
    ensures within { result ≤ length bytes.now }
{
    bytes
        .iter()
        .position(|b| is_blank(*b))
        .unwrap_or(bytes.len())
}

/// The index of the first byte that is not a blank, or the number of bytes where there is none.
fn word_position(bytes: &[u8]) -> usize
    ensures position { result ≡ position_or_len (λ b. not (is_blank b)) bytes.now }
    ensures within { result ≤ length bytes.now }
{
    bytes
        .iter()
        .position(|b| !is_blank(*b))
        .unwrap_or(bytes.len())
}

/// The bytes before the first such byte and those after it; all bytes and none where there is no such byte.
pub(crate) fn split_at_byte(bytes: &[u8], byte: u8) -> (&[u8], &[u8])
    ensures before { result.0.now ≡ before_first (λ b. b == byte) bytes.now }
    ensures after { result.1.now ≡ after_first (λ b. b == byte) bytes.now }
{
    let (before, rest) = bytes.split_at(byte_position(bytes, byte));
    match rest {
        [] => (before, rest),
        [_, after @ ..] => (before, after),
    }
}

/// The text of a line without one CR at the end of the line and without the comment, from `#` on.
pub(crate) fn content(line: &[u8]) -> &[u8]
    ensures { result.now ≡ content_of line.now }
{
    let line = match line {
        [front @ .., b'\r'] => front,
        _ => line,
    };
    split_at_byte(line, b'#').0
}

/// The first word of a text, and the rest of the text; `None` where there is no word.
pub(crate) fn next_word(text: &[u8]) -> Option<(&[u8], &[u8])>
    ensures some { IfSome result (λ r. words_in text.now ≡ r.0.now ∷ words_in r.1.now) }
    ensures shorter { IfSome result (λ r. length r.1.now < length text.now) }
    ensures none { IfNone result (words_in text.now ≡ []) }
{
    let tail = &text[word_position(text)..];
    if tail.is_empty() {
        return None;
    }
    Some(tail.split_at(blank_position(tail)))
}
