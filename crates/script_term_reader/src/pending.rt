//! Operators that still want their right operand, at most one at each level.
ghost use Rattle.std.specs.Prelude.{◌≡◌, option_map, suc};
ghost use Rattle.algorithm_reading.specs.Pending.{no_loose, no_tight, with_nots, with_minuses, calculated, compared, and_of, or_of, product_of, sum_of, comparison_of, conjunction_of, disjunction_of, behind_product, behind_sum, behind_comparison, behind_and, behind_or};
ghost use Rattle.algorithm_reading.specs.Feeding.{behind_compared};
ghost use Rattle.script_term.specs.Operand.{plain_operand};
ghost use Rattle.script_term_reader.specs.Made.{Makes};
ghost use Rattle.script_term_reader.specs.PendingLeft.{plain_left};

use script_term::{Comparison, Join, Operand, Operator, denied, joined, negated};
use std::alloc::{AllocError, Global};
use std::marker::Model;

/// What is made of an operand, unless memory ran out.
pub type Gained<T> = Result<T, AllocError>;

/// The loose operators: what stands left of `or`, what stands left of `and` behind it, and how many
/// `not` stand behind that.
#[derive(Drop)]
pub struct Loose {
    or_left: Option<Operand>,
    and_left: Option<Operand>,
    nots: usize,
}

/// The tight ones: what stands left of a comparison, of `+` or `-`, of `*`, `//` or `%`, each
/// behind the one before; and how many unary `-` stand behind that.
#[derive(Drop)]
pub struct Tight {
    compare_left: Option<(Comparison, Operand)>,
    sum_left: Option<(Operator, Operand)>,
    product_left: Option<(Operator, Operand)>,
    minuses: usize,
}

impl Model for Loose {
    ghost use Rattle.algorithm_reading.specs.Pending as plain;
    ghost use Rattle.script_term_reader.specs.PendingCode.{coded_loose};

    ghost Value = { plain.Loose };

    ghost coded = { coded_loose };

    ghost use Rattle.script_term_reader.specs.Pending.{plain_loose};

    ghost view = { plain_loose };
}

impl Model for Tight {
    ghost use Rattle.algorithm_reading.specs.Pending as plain;
    ghost use Rattle.script_term_reader.specs.PendingCode.{coded_tight};

    ghost Value = { plain.Tight };

    ghost coded = { coded_tight };

    ghost use Rattle.script_term_reader.specs.Pending.{plain_tight};

    ghost view = { plain_tight };
}

/// Nothing is pending of `or`, `and`, `not` and comparisons.
pub fn no_loose() -> Loose
    ensures { result ≡ no_loose }
{
    Loose {
        or_left: None,
        and_left: None,
        nots: 0,
    }
}

/// Nothing is pending of sums and products.
pub fn no_tight() -> Tight
    ensures { result ≡ no_tight }
{
    Tight {
        compare_left: None,
        sum_left: None,
        product_left: None,
        minuses: 0,
    }
}

// ---- what one level makes of its right operand

fn with_nots(alloc: Global, nots: usize, operand: Operand) -> Gained<Operand>
    ensures { Makes plain_operand (with_nots nots (plain_operand operand)) result }
{
    let mut made = operand;
    for _count in 0..nots {
        made = denied(alloc, made)?;
    }
    Ok(made)
}

fn with_minuses(alloc: Global, minuses: usize, operand: Operand) -> Gained<Operand>
    ensures { Makes plain_operand (with_minuses minuses (plain_operand operand)) result }
{
    let mut made = operand;
    for _count in 0..minuses {
        made = negated(alloc, made)?;
    }
    Ok(made)
}

fn calculated(alloc: Global, left: Option<(Operator, Operand)>, right: Operand) -> Gained<Operand>
    ensures { Makes plain_operand (calculated (plain_left left) (plain_operand right)) result }
{
    match left {
        None => Ok(right),
        Some((operator, left)) => joined(alloc, Join::Calculate(operator), left, right),
    }
}

fn compared(alloc: Global, left: Option<(Comparison, Operand)>, right: Operand) -> Gained<Operand>
    ensures { Makes plain_operand (compared (plain_left left) (plain_operand right)) result }
{
    match left {
        None => Ok(right),
        Some((comparison, left)) => joined(alloc, Join::Compare(comparison), left, right),
    }
}

fn and_of(alloc: Global, left: Option<Operand>, right: Operand) -> Gained<Operand>
    ensures { Makes plain_operand (and_of (option_map plain_operand left) (plain_operand right))
        result }
{
    match left {
        None => Ok(right),
        Some(left) => joined(alloc, Join::And, left, right),
    }
}

fn or_of(alloc: Global, left: Option<Operand>, right: Operand) -> Gained<Operand>
    ensures { Makes plain_operand (or_of (option_map plain_operand left) (plain_operand right))
        result }
{
    match left {
        None => Ok(right),
        Some(left) => joined(alloc, Join::Or, left, right),
    }
}

// ---- what the levels make of an operand, each with the tighter ones before it

fn product_of(
    alloc: Global,
    left: Option<(Operator, Operand)>,
    minuses: usize,
    operand: Operand,
) -> Gained<Operand>
    ensures { Makes plain_operand (calculated (plain_left left)
        (with_minuses minuses (plain_operand operand))) result }
{
    match with_minuses(alloc, minuses, operand) {
        Ok(right) => calculated(alloc, left, right),
        Err(refused) => {
            forget_calculated(left);
            Err(refused)
        }
    }
}

/// Forgets what stands left of a comparison.
fn sum_of(alloc: Global, tight: Tight, operand: Operand) -> Gained<Operand>
    ensures { Makes plain_operand (sum_of tight (plain_operand operand)) result }
{
    let Tight {
        compare_left,
        sum_left,
        product_left,
        minuses,
    } = tight;
    forget_compared(compare_left);
    sum_of_parts(alloc, sum_left, product_left, minuses, operand)
}

fn sum_of_parts(
    alloc: Global,
    sum_left: Option<(Operator, Operand)>,
    product_left: Option<(Operator, Operand)>,
    minuses: usize,
    operand: Operand,
) -> Gained<Operand>
    ensures { Makes plain_operand (calculated (plain_left sum_left)
        (calculated (plain_left product_left) (with_minuses minuses (plain_operand operand))))
        result }
{
    match product_of(alloc, product_left, minuses, operand) {
        Ok(product) => calculated(alloc, sum_left, product),
        Err(refused) => {
            forget_calculated(sum_left);
            Err(refused)
        }
    }
}

fn comparison_of(alloc: Global, tight: Tight, operand: Operand) -> Gained<Operand>
    ensures { Makes plain_operand (comparison_of tight (plain_operand operand)) result }
{
    let Tight {
        compare_left,
        sum_left,
        product_left,
        minuses,
    } = tight;
    match sum_of_parts(alloc, sum_left, product_left, minuses, operand) {
        Ok(sum) => compared(alloc, compare_left, sum),
        Err(refused) => {
            forget_compared(compare_left);
            Err(refused)
        }
    }
}

fn conjunction_of(
    alloc: Global,
    left: Option<Operand>,
    nots: usize,
    tight: Tight,
    operand: Operand,
) -> Gained<Operand>
    ensures { Makes plain_operand (and_of (option_map plain_operand left)
        (with_nots nots (comparison_of tight (plain_operand operand)))) result }
{
    match denied_comparison(alloc, nots, tight, operand) {
        Ok(right) => and_of(alloc, left, right),
        Err(refused) => {
            forget_left(left);
            Err(refused)
        }
    }
}

fn denied_comparison(alloc: Global, nots: usize, tight: Tight, operand: Operand) -> Gained<Operand>
    ensures { Makes plain_operand (with_nots nots (comparison_of tight (plain_operand operand)))
        result }
{
    let comparison = comparison_of(alloc, tight, operand)?;
    with_nots(alloc, nots, comparison)
}

/// What all levels make of the operand.
pub fn disjunction_of(
    alloc: Global,
    loose: Loose,
    tight: Tight,
    operand: Operand,
) -> Gained<Operand>
    ensures { Makes plain_operand (disjunction_of loose tight (plain_operand operand)) result }
{
    let Loose {
        or_left,
        and_left,
        nots,
    } = loose;
    match conjunction_of(alloc, and_left, nots, tight, operand) {
        Ok(conjunction) => or_of(alloc, or_left, conjunction),
        Err(refused) => {
            forget_left(or_left);
            Err(refused)
        }
    }
}

// ---- what is pending behind an operator that stands behind an operand

/// What is pending once an operand came and `*`, `//` or `%` follows it.
pub fn behind_product(
    alloc: Global,
    tight: Tight,
    operator: Operator,
    operand: Operand,
) -> Gained<Tight>
    ensures { Makes (λ a. a) (behind_product tight operator (plain_operand operand)) result }
{
    let Tight {
        compare_left,
        sum_left,
        product_left,
        minuses,
    } = tight;
    match product_of(alloc, product_left, minuses, operand) {
        Ok(left) => Ok(Tight {
            compare_left,
            sum_left,
            product_left: Some((operator, left)),
            minuses: 0,
        }),
        Err(refused) => {
            forget_compared(compare_left);
            forget_calculated(sum_left);
            Err(refused)
        }
    }
}

/// What is pending once an operand came and `+` or `-` follows it.
pub fn behind_sum(
    alloc: Global,
    tight: Tight,
    operator: Operator,
    operand: Operand,
) -> Gained<Tight>
    ensures { Makes (λ a. a) (behind_sum tight operator (plain_operand operand)) result }
{
    let Tight {
        compare_left,
        sum_left,
        product_left,
        minuses,
    } = tight;
    match sum_of_parts(alloc, sum_left, product_left, minuses, operand) {
        Ok(left) => Ok(Tight {
            compare_left,
            sum_left: Some((operator, left)),
            product_left: None,
            minuses: 0,
        }),
        Err(refused) => {
            forget_compared(compare_left);
            Err(refused)
        }
    }
}

/// At most one comparison.
pub fn behind_compared(
    alloc: Global,
    tight: Tight,
    comparison: Comparison,
    operand: Operand,
) -> Gained<Option<Tight>>
    ensures { Makes (λ a. a) (behind_compared tight.compare_left tight comparison
        (plain_operand operand)) result }
{
    match &tight.compare_left {
        Some(_) => {
            forget_tight(tight);
            forget_operand(operand);
            Ok(None)
        }
        None => Ok(Some(behind_comparison(alloc, tight, comparison, operand)?)),
    }
}

fn behind_comparison(
    alloc: Global,
    tight: Tight,
    comparison: Comparison,
    operand: Operand,
) -> Gained<Tight>
    ensures { Makes (λ a. a) (behind_comparison tight comparison (plain_operand operand)) result }
{
    let left = sum_of(alloc, tight, operand)?;
    Ok(Tight {
        compare_left: Some((comparison, left)),
        sum_left: None,
        product_left: None,
        minuses: 0,
    })
}

/// What is pending once an operand came and `and` follows it.
pub fn behind_and(alloc: Global, loose: Loose, tight: Tight, operand: Operand) -> Gained<Loose>
    ensures { Makes (λ a. a) (behind_and loose tight (plain_operand operand)) result }
{
    let Loose {
        or_left,
        and_left,
        nots,
    } = loose;
    match conjunction_of(alloc, and_left, nots, tight, operand) {
        Ok(left) => Ok(Loose {
            or_left,
            and_left: Some(left),
            nots: 0,
        }),
        Err(refused) => {
            forget_left(or_left);
            Err(refused)
        }
    }
}

/// What is pending once an operand came and `or` follows it.
pub fn behind_or(alloc: Global, loose: Loose, tight: Tight, operand: Operand) -> Gained<Loose>
    ensures { Makes (λ a. a) (behind_or loose tight (plain_operand operand)) result }
{
    let left = disjunction_of(alloc, loose, tight, operand)?;
    Ok(Loose {
        or_left: Some(left),
        and_left: None,
        nots: 0,
    })
}

/// One `not` more.
pub fn behind_not(loose: Loose) -> Gained<Loose>
    ensures { Makes (λ a. a) (record loose { nots = suc loose.nots }) result }
{
    let mut loose = loose;
    match one_more(loose.nots) {
        Ok(nots) => {
            loose.nots = nots;
            Ok(loose)
        }
        Err(refused) => {
            forget_loose(loose);
            Err(refused)
        }
    }
}

/// One unary `-` more.
pub fn behind_minus(tight: Tight) -> Gained<Tight>
    ensures { Makes (λ a. a) (record tight { minuses = suc tight.minuses }) result }
{
    let mut tight = tight;
    match one_more(tight.minuses) {
        Ok(minuses) => {
            tight.minuses = minuses;
            Ok(tight)
        }
        Err(refused) => {
            forget_tight(tight);
            Err(refused)
        }
    }
}

/// No memory holds as many lexemes as would take the count to its type's end.
fn one_more(count: usize) -> Gained<usize>
    ensures { Makes (λ a. a) (suc count) result }
{
    count.checked_add(1).ok_or(AllocError)
}

// ---- What is let go is taken apart first, and each kind of part is let go in one place.

/// Lets go what is pending loosely.
pub fn forget_loose(loose: Loose) {
    let Loose {
        or_left,
        and_left,
        nots: _,
    } = loose;
    forget_left(or_left);
    forget_left(and_left);
}

/// Lets go what is pending tightly.
pub fn forget_tight(tight: Tight) {
    let Tight {
        compare_left,
        sum_left,
        product_left,
        minuses: _,
    } = tight;
    forget_compared(compare_left);
    forget_calculated(sum_left);
    forget_calculated(product_left);
}

fn forget_left(_left: Option<Operand>) {}

fn forget_compared(_left: Option<(Comparison, Operand)>) {}

fn forget_calculated(_left: Option<(Operator, Operand)>) {}

/// Lets an operand go.
pub fn forget_operand(_operand: Operand) {}
