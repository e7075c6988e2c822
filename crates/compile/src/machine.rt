// The nodes of a tree folded one after the other. The rows of finished operands stand at the beginning of the plan, the words of the tree at its
// end, four a node; a node is read before the rows reach it.
ghost use Rattle.std.specs.Prelude.{◌≡◌, [], ◌∷◌, ◌++◌, ◌+◌, ◌≤◌, ◌<◌, length, drop};
ghost use Rattle.plan.specs.Measures.{plan_length, most_rows};
ghost use Rattle.fold.specs.Folded.{trimmed_sum};
ghost use Rattle.fold_rows.specs.Standing.{placed, no_span};
ghost use Rattle.fold_operands.specs.Operands.{Two, FoldsBoth};
ghost use Rattle.compile.specs.Machine.{fold_both, Ends, FirstRow, AtNode, FoldsNode, AtPlace, FoldsPlace, Compilable, Written, FoldedAt};
ghost use Rattle.formula.specs.Words.{kind_number};
ghost use Rattle.formula.specs.Tree.{Tree, span_of};
ghost use Rattle.fold.specs.Folding.{fold};
ghost use Rattle.fold.specs.Layout.{plan_words};

use chain::Chain;
use fold_operands::{Pair, put_sum};
use fold_sums::{Additive, fold_sum};
use formula::NodeKind;
use formula_read::SPANNED_TREE_WORDS;
use plan::{PLAN_WORDS, PlanWords};
use plan_rows::kinds::PRODUCT_CHAIN;
use plan_rows::word;

// The tree stands in the last of the plan's own words, its nodes behind the node count.
pub const TREE_START: usize = PLAN_WORDS - SPANNED_TREE_WORDS;

const NODES_START: usize = TREE_START + 1;

// The words of a node: kind and word, and the first byte and end byte of its text.
const NODE_WORDS: usize = 4;

// The grid that a formula is compiled on: x is `start` at index 0, and grows by `step`.
#[derive(Clone, Copy)]
pub struct Grid {
    pub start: u64,
    pub step: u64,
}

// The chain of two elements, trimmed, in row r: a number and 0, or x.
fn put_pair(plan: &mut PlanWords, r: usize, first: u64, second: u64)
    requires { r < most_rows }
    ensures { plan.new ≡ placed plan.old r no_span (trimmed_sum (first ∷ second ∷ [])) }
{
    let mut elements = chain_arrays::zeros();
    elements[0] = first;
    elements[1] = second;
    let trimmed = chain_calls::trim(Chain {
        length: 1,
        elements,
    });
    put_sum(plan, r, trimmed.unwrap());
}

// The operator of two operands: + - * or a raise.
fn fold_both(plan: &mut PlanWords, kind: NodeKind, pair: Pair) -> usize
    requires end_lt_most_rows { pair.end < most_rows }
    requires two { Two plan.old pair.left pair.middle pair.end }
    ensures { FoldsBoth (fold_both (kind_number kind)) plan.old pair.left pair.middle pair.end result plan.new }
{
    match kind {
        NodeKind::Sum => fold_sum(plan, Additive::Sum, pair),
        NodeKind::Difference => fold_sum(plan, Additive::Difference, pair),
        NodeKind::Product => fold_products::fold_product(plan, pair),
        _ => fold_raises::fold_raise(plan, pair),
    }
}

// The first row of the operand that ends before row `end`: from its root down the left operands.
fn first_row(plan: &PlanWords, end: usize) -> usize
    requires end_le_most_rows { end ≤ most_rows }
    requires ends { Ends plan.now end }
    ensures { FirstRow plan.now end result }
{
    let mut r = end - 1;
    // Kept: each row is named by the one before it alone, so that no range and no iterator of the plan's own has them.
    while PRODUCT_CHAIN < word(plan, r, 0) {
        r = word(plan, r, 1) as usize;
    }
    r
}

// One node: a number, x, or an operator on the operands that were finished last, its span left out. Answers the row behind the last operand.
fn fold_node(plan: &mut PlanWords, end: usize, kind: NodeKind, word: u64, grid: Grid) -> usize
    requires { AtNode grid.start grid.step plan.old end (kind_number kind) word }
    ensures { FoldsNode grid.start grid.step plan.old end (kind_number kind) word plan.new result }
{
    match kind {
        NodeKind::Number => {
            put_pair(plan, end, word, 0);
            end + 1
        }
        NodeKind::Variable => {
            put_pair(plan, end, grid.start, grid.step);
            end + 1
        }
        NodeKind::Minus => {
            let first = first_row(plan, end);
            fold_minus::fold_minus(plan, first, end)
        }
        NodeKind::LiteralPower => {
            let base = first_row(plan, end);
            fold_powers::fold_power(plan, base, end, word)
        }
        _ => {
            let middle = first_row(plan, end);
            let left = first_row(plan, middle);
            fold_both(plan, kind, Pair { left, middle, end })
        }
    }
}

// The node whose four words stand from `at` on: its root row, also that of an operand which it passes through, gets its whole span.
fn fold_place(plan: &mut PlanWords, at: usize, end: usize, grid: Grid) -> usize
    requires at_bound { at + 3 < plan_length }
    requires at_place { AtPlace grid.start grid.step plan.old end at }
    ensures { FoldsPlace grid.start grid.step plan.old end at plan.new result }
{
    let kind = NodeKind::try_from(plan[at]).unwrap();
    let word = plan[at + 1];
    let first_byte = plan[at + 2];
    let end_byte = plan[at + 3];
    let behind = fold_node(plan, end, kind, word, grid);
    let root = behind - 1;
    fold_rows::put_span(plan, root, first_byte, end_byte);
    behind
}

// All nodes of the tree whose words stand at the end of the plan. Answers the row behind the folded tree.
fn fold_nodes(plan: &mut PlanWords, grid: Grid) -> usize
    requires { (t : Tree) × Compilable grid.start grid.step t × Written plan.old t }
    ensures { (t : Tree) → Compilable grid.start grid.step t → Written plan.old t → FoldedAt grid.start grid.step plan.old t plan.new result }
{
    let count = plan[TREE_START] as usize;
    let mut end = 0;
    for n in 0..count {
        end = fold_place(plan, NODES_START + NODE_WORDS * n, end, grid);
    }
    end
}

// The plan of the folded tree, in all of the plan's own words.
// Never inlined: the reader's calls go 33 deep below the frame of `compile`, so the arrays of folding have a frame of their own.
#[inline(never)]
pub fn fold_tree(plan: &mut PlanWords, grid: Grid)
    requires { (t : Tree) × Compilable grid.start grid.step t × Written plan.old t }
    ensures { (t : Tree) → Compilable grid.start grid.step t → Written plan.old t
        → plan.new ≡ plan_words (span_of t) (fold 64 grid.start grid.step t) }
{
    let rows = fold_nodes(plan, grid);
    plan[0] = rows as u64;
    let behind = plan_rows::start(rows);
    plan[behind..].fill(0);
}
