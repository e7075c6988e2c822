// What is read of the rows of two factors: which rule they fold by, and a factor filled with ones.
// The products themselves are in `fold_products`.
#![tactic(auto)]

ghost use Rattle.std.specs.Prelude.{◌≡◌, ◌&&◌, ◌||◌, ◌+◌, ◌≤◌, ◌<◌, leb, length};
ghost use Rattle.plan.specs.Measures.{plan_length, most_rows};
ghost use Rattle.plan.specs.Row.{word_a};
ghost use Rattle.plan.specs.Plan.{row};
ghost use Rattle.fold_operands.specs.OperandRows.{is_constant_row, is_sum_row, is_product_row, product_in};

use chain_arrays::LONGEST;
use fold_operands::{chain_in, is_constant, is_sum, kind, length_of};
use fold_rows::product_rows;
use plan_rows::kinds::{CONSTANT, PRODUCT_CHAIN};

// The product chain in row r, or a constant as its element 0, filled with ones.
pub fn filled(plan: &[u64], r: usize) -> [u64; 17]
    requires plan_length_in_bounds { plan_length ≤ length plan.now }
    requires r_lt_most_rows { r < most_rows }
    requires r_bound { word_a (row plan.now r) ≤ 16 }
    ensures { result ≡ product_in (row plan.now r) }
{
    product_rows::with_ones(chain_in(plan, r))
}

// One of the rows a and b is the constant 0.
pub fn has_zero(plan: &[u64], a: usize, b: usize) -> bool
    requires plan_length_in_bounds { plan_length ≤ length plan.now }
    requires a_lt_most_rows { a < most_rows }
    requires b_lt_most_rows { b < most_rows }
    ensures { result ≡ (is_constant_row 0 (row plan.now a) || is_constant_row 0 (row plan.now b)) }
{
    is_constant(plan, a, 0) || is_constant(plan, b, 0)
}

// Rows a and b are constants or sum chains, with lengths that add to 16 at most.
pub fn are_sums(plan: &[u64], a: usize, b: usize) -> bool
    requires plan_length_in_bounds { plan_length ≤ length plan.now }
    requires a_lt_most_rows { a < most_rows }
    requires b_lt_most_rows { b < most_rows }
    ensures { result ≡ (is_sum_row (row plan.now a) && (is_sum_row (row plan.now b) && leb (word_a (row plan.now a) + word_a (row plan.now b)) 16)) }
{
    is_sum(plan, a)
        && is_sum(plan, b)
        && length_of(plan, a).saturating_add(length_of(plan, b)) <= LONGEST
}

// Row r is a constant or a product chain.
fn is_product(plan: &[u64], r: usize) -> bool
    requires plan_length_in_bounds { plan_length ≤ length plan.now }
    requires r_lt_most_rows { r < most_rows }
    ensures { result ≡ is_product_row (row plan.now r) }
{
    let kind = kind(plan, r);
    kind == CONSTANT || kind == PRODUCT_CHAIN
}

// Rows a and b are constants or product chains.
pub fn are_products(plan: &[u64], a: usize, b: usize) -> bool
    requires plan_length_in_bounds { plan_length ≤ length plan.now }
    requires a_lt_most_rows { a < most_rows }
    requires b_lt_most_rows { b < most_rows }
    ensures { result ≡ (is_product_row (row plan.now a) && is_product_row (row plan.now b)) }
{
    is_product(plan, a) && is_product(plan, b)
}
