// Tables that run backwards: the letters of a chain in postfix that call on backward chains, and tables walked from now towards then.
// The stack and the other letters are in `chains`, which hands over the letters that are not its own.
use crate::chains;
use crate::chains::Stack;
use chain_backward::backward_value;
use edges_print::List;
use std::io;

// The stack after a letter. a and t take the two uppermost backward chains to their sum and to their product. I takes a forward chain one index back, i a
// backward one; e shifts a backward chain; B makes a forward chain a backward one, and any other letter a backward chain a forward one.
pub fn step(stack: Stack, letter: u8) -> Stack {
    let f = stack.second();
    let g = stack.top();
    match letter {
        b'a' => stack.with_both(chain_backward::backward_sum(f, g)),
        b't' => stack.with_both(chain_backward::backward_product(f, g)),
        b'I' => stack.with_top(chain_backward::inverse_shift(g)),
        b'i' => stack.with_top(chain_backward::backward_inverse_shift(g)),
        b'e' => stack.with_top(chain_backward::backward_shift(g)),
        b'B' => stack.with_top(chain_backward::to_backward(g)),
        _ => stack.with_top(chain_backward::to_forward(g)),
    }
}

// The values of a forward chain from now back, those of its backward chain, and those of the backward chain from now on.
pub fn walk(rt: &impl Print, name: &[u8], body: &[u8]) -> io::Result<()> {
    let forward = chains::worked(body);
    let backward = chain_backward::to_backward(forward).unwrap_or(chains::ZERO);
    let back = chains::values(forward, backward_value, chain_backward::inverse_shift);
    let same = chains::values(
        backward,
        backward_value,
        chain_backward::backward_inverse_shift,
    );
    let on = chains::values(backward, backward_value, chain_backward::backward_shift);
    rt.write_all(name)?;
    println!(rt; "\t{} {} {}", List(&back), List(&same), List(&on))
}
