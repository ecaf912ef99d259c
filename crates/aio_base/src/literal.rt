//! The text of literals, and of texts that are printed without quotes.
ghost use Rattle.std.specs.Prelude.{◌≡◌, ◌++◌, ◌<◌, OnOk};
ghost use Rattle.model_value.specs.Escapes.{escaped, escaped_byte, hex_digit, hex_escape, text_literal, bytes_literal};

use crate::memory::Memory;
use model_value::Place;

/// Appends `"..."`. On `Memory` a front of it may stand there.
pub fn push_text_literal(text: &str, out: &mut Vec<u8>) -> Result<(), Memory>
    ensures { OnOk result (out.new.items ≡ out.old.items ++ text_literal text.now) }
{
    out.push(b'"')?;
    push_escaped(Place::InText, text.as_bytes(), out)?;
    out.push(b'"')?;
    Ok(())
}

/// Appends `b"..."`. On `Memory` a front of it may stand there.
pub fn push_bytes_literal(bytes: &[u8], out: &mut Vec<u8>) -> Result<(), Memory>
    ensures { OnOk result (out.new.items ≡ out.old.items ++ bytes_literal bytes.now) }
{
    out.extend_from_slice(b"b\"")?;
    push_escaped(Place::InBytes, bytes, out)?;
    out.push(b'"')?;
    Ok(())
}

/// Appends the bytes, escaped as their place asks. On `Memory` a front of it may stand there.
pub fn push_escaped(place: Place, bytes: &[u8], out: &mut Vec<u8>) -> Result<(), Memory>
    ensures { OnOk result (out.new.items ≡ out.old.items ++ escaped place bytes.now) }
{
    for byte in bytes {
        push_byte(place, *byte, out)?;
    }
    Ok(())
}

fn push_byte(place: Place, byte: u8, out: &mut Vec<u8>) -> Result<(), Memory>
    ensures { OnOk result (out.new.items ≡ out.old.items ++ escaped_byte place byte) }
{
    match byte {
        b'\n' => out.extend_from_slice(b"\\n")?,
        b'\r' => out.extend_from_slice(b"\\r")?,
        b'\t' => out.extend_from_slice(b"\\t")?,
        b'\\' => out.extend_from_slice(b"\\\\")?,
        b'"' if place != Place::Bare => out.extend_from_slice(b"\\\"")?,
        0..=0x1f | 0x7f => push_hex(byte, out)?,
        0x80.. if place == Place::InBytes => push_hex(byte, out)?,
        _ => out.push(byte)?,
    }
    Ok(())
}

fn push_hex(byte: u8, out: &mut Vec<u8>) -> Result<(), Memory>
    ensures { OnOk result (out.new.items ≡ out.old.items ++ hex_escape byte) }
{
    out.extend_from_slice(&[
        b'\\',
        b'x',
        hex_digit_of(byte / 16),
        hex_digit_of(byte % 16),
    ])?;
    Ok(())
}

fn hex_digit_of(digit: u8) -> u8
    requires { digit < 16 }
    ensures { result ≡ hex_digit digit }
{
    if digit < 10 {
        b'0' + digit
    } else {
        b'a' + (digit - 10)
    }
}
