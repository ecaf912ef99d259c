//! Two meanings of one line: the least cause counts.
ghost use Rattle.std.specs.Prelude.{◌≡◌};
ghost use Rattle.model_text.specs.Naming.{lesser, if_arity};
ghost use Rattle.script_naming.specs.Gives.{Gives, lesser_fault, both_found};

use model_text::Cause;
use script_fault::LineFault;

fn lesser(cause: Cause, other: Cause) -> Cause
    ensures { result ≡ lesser cause other }
{
    match cause {
        Cause::Name => Cause::Name,
        _ => other,
    }
}

fn lesser_fault(fault: LineFault, other: LineFault) -> LineFault
    ensures { result ≡ lesser_fault fault other }
{
    match (fault, other) {
        (LineFault::Refused(cause), LineFault::Refused(other)) => {
            LineFault::Refused(lesser(cause, other))
        }
        _ => LineFault::Memory,
    }
}

/// Both meanings, or the least cause.
pub fn both<A: Drop, B: Drop>(
    left: Result<A, LineFault>,
    right: Result<B, LineFault>,
) -> Result<(A, B), LineFault>
    ensures { result ≡ both_found left right }
{
    match (left, right) {
        (Ok(left), Ok(right)) => Ok((left, right)),
        (Err(fault), Err(other)) => Err(lesser_fault(fault, other)),
        (Err(fault), Ok(_)) => Err(fault),
        (Ok(_), Err(fault)) => Err(fault),
    }
}

/// The meaning, where the number of arguments is right.
pub fn if_arity<A: Drop>(is_right: bool, meaning: A) -> Result<A, LineFault>
    ensures { Gives (λ a. a) (if_arity is_right meaning) result }
{
    if is_right {
        Ok(meaning)
    } else {
        Err(LineFault::Refused(Cause::Arity))
    }
}
