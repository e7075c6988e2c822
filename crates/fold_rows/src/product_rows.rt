// Product chains as 17 words: filled with ones to work on them, trimmed to put them into a row.
// Which chains are joined, and how, is decided in the crates above.
ghost use Rattle.std.specs.Prelude.{◌≡◌, ◌+◌, ◌≤◌, ◌<◌, length, take};
ghost use Rattle.plan.specs.Measures.{plan_length, most_rows};
ghost use Rattle.fold.specs.Folded.{trimmed_product};
ghost use Rattle.fold_rows.specs.Standing.{filled_with_ones, placed, no_span};

use crate::put_chain;
use chain::Chain;
use plan_rows::kinds::PRODUCT_CHAIN;

// The chain's elements, and 1 past its length.
pub fn with_ones(f: Chain) -> [u64; 17]
    requires { f.length ≤ 16 }
    ensures { result ≡ filled_with_ones 17 (take (f.length + 1) f.elements) }
{
    let mut filled = f.elements;
    filled[f.length + 1..].fill(1);
    filled
}

// The row of a product chain of 17 elements, trimmed; with a first element 0 it is the constant 0.
pub fn put_product(plan: &mut [u64], r: usize, elements: [u64; 17])
    requires plan_length_in_bounds { plan_length ≤ length plan.old }
    requires r_lt_most_rows { r < most_rows }
    ensures { plan.new ≡ placed plan.old r no_span (trimmed_product elements) }
{
    if elements[0] == 0 {
        let zero = Chain {
            length: 0,
            elements: chain_arrays::zeros(),
        };
        return put_chain(plan, r, PRODUCT_CHAIN, zero);
    }
    let last = chain_arrays::trimmed_length(&elements, 1);
    let trimmed = Chain {
        length: last,
        elements: chain_arrays::kept(elements, last),
    };
    put_chain(plan, r, PRODUCT_CHAIN, trimmed);
}
