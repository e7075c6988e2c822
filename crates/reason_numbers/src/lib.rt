// A row's reason, from what the folding rules see of its operands, operator by operator.
// What is seen of an operand's row, and the call, is in `reason_call`; that these are the reasons is proved in `reason`.
#![tactic(auto)]

ghost use Rattle.std.specs.Prelude.{◌≡◌, ◌≤◌, ◌<◌};
ghost use Rattle.plan.specs.Measures.{most_rows};
ghost use Rattle.reason.specs.Answer.{reason_number};
ghost use Rattle.reason.proofs.Numbers.{is_word, has_word, has_operator, sum_folds, alike_folds, product_folds, power_folds, judged, joined_number};
ghost use Rattle.reason.proofs.Numbers.{sum_number, product_number, minus_number, power_number, raise_number};

use chain_arrays::LONGEST;
use plan_rows::kinds::{CONSTANT, PRODUCT_CHAIN, SUM_CHAIN};
use reason::{Reason, Seen};

// The constant n.
fn is_word(operand: Seen, n: u64) -> bool
    ensures { result ≡ is_word n operand }
{
    operand.kind == CONSTANT && operand.first == n
}

// One of two operands is the constant n.
fn has_word(left: Seen, right: Seen, n: u64) -> bool
    ensures { result ≡ has_word n left right }
{
    is_word(left, n) || is_word(right, n)
}

// One of two operands is itself of kinds 3 to 8.
fn has_operator(left: Seen, right: Seen) -> bool
    ensures { result ≡ has_operator left right }
{
    PRODUCT_CHAIN < left.kind || PRODUCT_CHAIN < right.kind
}

// Whether 01 folds + or -: a 0 goes, and two constants or sum chains are added.
fn sum_folds(left: Seen, right: Seen) -> bool
    ensures { result ≡ sum_folds left right }
{
    has_word(left, right, 0) || left.kind < PRODUCT_CHAIN && right.kind < PRODUCT_CHAIN
}

// Whether it folds * of two constants or two chains of one kind: sum chains if they are not too long together.
fn alike_folds(left: Seen, right: Seen) -> bool
    requires length_bound { left.length ≤ 16 }
    requires length_bound_2 { right.length ≤ 16 }
    ensures { result ≡ alike_folds left right }
{
    left.kind != SUM_CHAIN || left.length + right.length <= LONGEST
}

// Whether it folds *: a 1 and a 0 go, and a constant is multiplied by any chain.
fn product_folds(left: Seen, right: Seen) -> bool
    requires length_bound { left.length ≤ 16 }
    requires length_bound_2 { right.length ≤ 16 }
    ensures { result ≡ product_folds left right }
{
    if has_word(left, right, 1) || has_word(left, right, 0) {
        return true;
    }
    if has_operator(left, right) {
        return false;
    }
    if left.kind == right.kind {
        return alike_folds(left, right);
    }
    left.kind == CONSTANT || right.kind == CONSTANT
}

// Whether it folds a literal power: that of an operator stays, and that of a sum chain which would be too long.
fn power_folds(operand: Seen, n: usize) -> bool
    requires length_bound { operand.length ≤ 16 }
    requires n_lt_most_rows { n < most_rows }
    ensures { result ≡ power_folds operand n }
{
    operand.kind <= PRODUCT_CHAIN && (operand.kind != SUM_CHAIN || operand.length * n <= LONGEST)
}

// "The last is judged first".
fn judged(folds: bool, other: Reason) -> Reason
    ensures { reason_number result ≡ judged folds (reason_number other) }
{
    if folds { Reason::WouldFold } else { other }
}

// What stays under + - and *: an operator is there, or both are chains of one kind, for which the reason is given, or it is a sum chain or constant
// against a product chain.
fn joined_reason(left: Seen, right: Seen, kind: u64, alike: Reason) -> Reason
    ensures { reason_number result ≡ joined_number kind (reason_number alike) left right }
{
    if has_operator(left, right) {
        return Reason::OperandStays;
    }
    if left.kind == kind && right.kind == kind {
        return alike;
    }
    Reason::AgainstProduct
}

pub fn sum_reason(left: Seen, right: Seen) -> Reason
    ensures { reason_number result ≡ sum_number left right }
{
    let other = joined_reason(left, right, PRODUCT_CHAIN, Reason::TwoProducts);
    judged(sum_folds(left, right), other)
}

pub fn product_reason(left: Seen, right: Seen) -> Reason
    requires length_bound { left.length ≤ 16 }
    requires length_bound_2 { right.length ≤ 16 }
    ensures { reason_number result ≡ product_number left right }
{
    let other = joined_reason(left, right, SUM_CHAIN, Reason::LengthsAddOver);
    judged(product_folds(left, right), other)
}

pub fn minus_reason(operand: Seen) -> Reason
    ensures { reason_number result ≡ minus_number operand }
{
    judged(operand.kind <= PRODUCT_CHAIN, Reason::OperandStays)
}

pub fn power_reason(operand: Seen, n: usize) -> Reason
    requires length_bound { operand.length ≤ 16 }
    requires n_lt_most_rows { n < most_rows }
    ensures { reason_number result ≡ power_number operand n }
{
    let other = if PRODUCT_CHAIN < operand.kind {
        Reason::OperandStays
    } else {
        Reason::LengthTimesOver
    };
    judged(power_folds(operand, n), other)
}

// The base of a raise is a constant.
pub fn raise_reason(exponent: Seen) -> Reason
    ensures { reason_number result ≡ raise_number exponent }
{
    judged(exponent.kind < PRODUCT_CHAIN, Reason::ExponentNeither)
}
