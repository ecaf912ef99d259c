//! How the canonical text writes names and operators.
ghost use Rattle.std.specs.Prelude.{◌≡◌, ◌++◌, OnOk};
ghost use Rattle.std.specs.Rc.{rc_str_bytes};
ghost use Rattle.model_text.specs.Canonical.{operator_text, comparison_text};

use aio_base::Memory;
use model_tree::{Comparison, Operator};
use std::rc::RcStr;

/// Appends the name.
pub fn push_name(name: &RcStr, out: &mut Vec<u8>) -> Result<(), Memory>
    ensures { OnOk result (out.new.items ≡ out.old.items ++ rc_str_bytes name.now) }
{
    out.extend_from_slice(name.as_str().as_bytes())?;
    Ok(())
}

/// With its spaces.
pub fn text_of_operator(operator: Operator) -> &'static str
    ensures { result.now ≡ operator_text operator }
{
    match operator {
        Operator::Add => " + ",
        Operator::Subtract => " - ",
        Operator::Multiply => " * ",
        Operator::FloorDivide => " // ",
        Operator::Remainder => " % ",
    }
}

/// With its spaces.
pub fn text_of_comparison(comparison: Comparison) -> &'static str
    ensures { result.now ≡ comparison_text comparison }
{
    match comparison {
        Comparison::Equal => " == ",
        Comparison::NotEqual => " != ",
        Comparison::Less => " < ",
        Comparison::LessOrEqual => " <= ",
        Comparison::Greater => " > ",
        Comparison::GreaterOrEqual => " >= ",
    }
}
