//! The text of constants.
ghost use Rattle.std.specs.Prelude.{◌≡◌, ◌++◌, OnOk};
ghost use Rattle.model_text.specs.Canonical.{constant_text};
ghost use Rattle.aio_syntax.specs.Constant.{constant_of};

use aio_base::{Memory, push_bytes_literal, push_text_literal};
use aio_syntax::Constant;
use std::alloc::Global;

/// Appends a literal, `True`, `False` or `None`.
pub fn push_constant(alloc: Global, constant: &Constant, out: &mut Vec<u8>) -> Result<(), Memory>
    ensures { OnOk result
        (out.new.items ≡ out.old.items ++ constant_text (constant_of constant.now)) }
{
    match constant {
        Constant::Nothing => out.extend_from_slice(b"None")?,
        Constant::Bool(true) => out.extend_from_slice(b"True")?,
        Constant::Bool(false) => out.extend_from_slice(b"False")?,
        Constant::Int(number) => out.extend_from_slice(number.to_string(alloc)?.as_bytes())?,
        Constant::Text(text) => push_text_literal(text.as_str(), out)?,
        Constant::Bytes(bytes) => push_bytes_literal(bytes.as_slice(), out)?,
    }
    Ok(())
}
