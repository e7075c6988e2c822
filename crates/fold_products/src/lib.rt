// Products of operands that stand at the top of a lent plan.
// What is read of two factors is in `fold_factors`. Which node is a product is decided in `compile`; sums and powers are in `fold_sums` and `fold_powers`.
#![tactic(auto)]

ghost use Rattle.std.specs.Prelude.{◌≡◌, ◌+◌, ◌≤◌, ◌<◌, length};
ghost use Rattle.plan.specs.Measures.{plan_length, most_rows};
ghost use Rattle.chain.specs.Chain.{words};
ghost use Rattle.chain.specs.SumChain.{product};
ghost use Rattle.chain.specs.ProductChain.{joint_product};
ghost use Rattle.plan.specs.Row.{word_a};
ghost use Rattle.plan.specs.Plan.{row};
ghost use Rattle.fold.specs.Folded.{trimmed_sum, trimmed_product};
ghost use Rattle.fold.specs.Folding.{fold_product};
ghost use Rattle.fold_rows.specs.Standing.{placed, no_span};
ghost use Rattle.fold_operands.specs.OperandRows.{sum_in, product_in};
ghost use Rattle.fold_operands.specs.Operands.{Two, FoldsBoth};

use chain_arrays::Product;
use fold_factors::{are_products, are_sums, filled, has_zero};
use fold_operands::{Pair, append, chain_in, is_constant, put_constant, put_sum};
use fold_rows::{moved_rows, product_rows};
use plan_rows::kinds::PRODUCT;

// Kept: the two functions that follow differ in what they read of a row, in how they multiply and in what they put, so that no line serves both.

// The product of the sum chains in rows a and b by document 000's rule, in row r.
fn put_product_of_sums(plan: &mut [u64], r: usize, a: usize, b: usize)
    requires plan_length_in_bounds { plan_length ≤ length plan.old }
    requires r_lt_most_rows { r < most_rows }
    requires a_lt_most_rows { a < most_rows }
    requires b_lt_most_rows { b < most_rows }
    requires b_bound { word_a (row plan.old a) + word_a (row plan.old b) ≤ 16 }
    ensures { plan.new
        ≡ placed plan.old r no_span
        (trimmed_sum (words 64 (product (sum_in (row plan.old a)) (sum_in (row plan.old b))))) }
{
    let product = chain_calls::product(chain_in(plan, a), chain_in(plan, b)).unwrap();
    put_sum(plan, r, product);
}

// The product of the product chains in rows a and b, in row r.
fn put_product_of_products(plan: &mut [u64], r: usize, a: usize, b: usize)
    requires plan_length_in_bounds { plan_length ≤ length plan.old }
    requires r_lt_most_rows { r < most_rows }
    requires a_lt_most_rows { a < most_rows }
    requires b_lt_most_rows { b < most_rows }
    requires a_bound { word_a (row plan.old a) ≤ 16 }
    requires b_bound { word_a (row plan.old b) ≤ 16 }
    ensures { plan.new
        ≡ placed plan.old r no_span
        (trimmed_product (words 64 (joint_product (product_in (row plan.old a)) (product_in (row plan.old b))))) }
{
    let f = filled(plan, a);
    let g = filled(plan, b);
    product_rows::put_product(plan, r, chain_arrays::word_by_word::<Product>(f, g));
}

// Constants 1 and 0 first, then sum chains, then product chains; anything else stays a row.
pub fn fold_product(plan: &mut [u64], pair: Pair) -> usize
    requires plan_length_in_bounds { plan_length ≤ length plan.old }
    requires end_lt_most_rows { pair.end < most_rows }
    requires two { Two plan.old pair.left pair.middle pair.end }
    ensures { FoldsBoth (fold_product 64) plan.old pair.left pair.middle pair.end result plan.new }
{
    let Pair { left, middle, end } = pair;
    let left_root = middle - 1;
    let right_root = end - 1;
    if is_constant(plan, left_root, 1) {
        moved_rows::move_down(plan, middle, end);
        return right_root;
    }
    if is_constant(plan, right_root, 1) {
        return right_root;
    }
    if has_zero(plan, left_root, right_root) {
        put_constant(plan, left, 0);
        return left + 1;
    }
    if are_sums(plan, left_root, right_root) {
        put_product_of_sums(plan, left, left_root, right_root);
        return left + 1;
    }
    if are_products(plan, left_root, right_root) {
        put_product_of_products(plan, left, left_root, right_root);
        return left + 1;
    }
    append(plan, end, PRODUCT, left_root as u64, right_root as u64);
    end + 1
}
