//! Bytes as the lines of a block.

use std::alloc::{AllocError, Global};

/// Adds a byte of a line, as an escape where it is no printable ASCII.
fn push_byte(text: &mut String, byte: u8) -> Result<(), AllocError> {
    match byte {
        b'\\' => text.push_str("\\\\"),
        b'\t' => text.push_str("\\t"),
        b'\r' => text.push_str("\\r"),
        b' '..=b'~' => text.push(char::from(byte)),
        _ => text.push_str(format!(in *text.allocator(); "\\x{byte:02x}")?.as_str()),
    }
}

/// The bytes as the lines of a block, each indented by four blanks and ended by LF.
pub fn shown_lines(alloc: Global, bytes: &[u8]) -> Result<String, AllocError> {
    let mut text = String::new(alloc);
    let mut is_start = true;
    for byte in bytes {
        if is_start {
            text.push_str("    ")?;
        }
        is_start = *byte == b'\n';
        if is_start {
            text.push('\n')?;
        } else {
            push_byte(&mut text, *byte)?;
        }
    }
    if !is_start {
        text.push_str("\\\n")?;
    }
    Ok(text)
}
