// A formula read into a lent tree whose words are all different before the call, and what is printed of it: the refusal's number and
// place; if accepted the nodes, and whether the tree's other words are clean; and whether the words that are to stay are as before.
use edges_print::{Judgement, clean, kept};
use edges_text::{text, words};
use formula::{MOST_NODES, TREE_WORDS};
use std::{fmt, io};

const LENT_WORDS: usize = TREE_WORDS + 1;

// kind word, kind word, ..
#[derive(Clone, Copy)]
struct Nodes<'a>(&'a [u64]);

impl fmt::Display for Nodes<'_> {
    fn fmt<W: fmt::Write>(&self, f: &mut fmt::Formatter<W>) -> fmt::Result {
        for (i, node) in self.0.chunks_exact(2).enumerate() {
            if 0 < i {
                f.write_str(", ")?;
            }
            write!(f, "{} {}", node[0], node[1])?;
        }
        Ok(())
    }
}

// count: kind word, kind word, .. and whether the rest of the 257 words is clean and those after them stayed.
fn print_tree(rt: &impl Print, tree: &[u64; LENT_WORDS]) -> io::Result<()> {
    let counted = tree[0];
    let end = 1 + 2 * (counted as usize).min(MOST_NODES);
    let nodes = Nodes(&tree[1..end]);
    println!(rt;
        "{counted}: {nodes} {} {}",
        clean(&tree[end..TREE_WORDS]),
        kept(tree, TREE_WORDS)
    )
}

// The case says how many words are lent, or nothing. Of a refused formula it is told whether all words stayed.
pub fn reading(rt: &impl Print, name: &[u8], formula: &[u8], lent: &[u8]) -> io::Result<()> {
    let mut tree = [0; LENT_WORDS];
    words::paint(&mut tree);
    let mut count = LENT_WORDS;
    rt.print("read ")?;
    rt.write_all(name)?;
    if !lent.is_empty() {
        rt.print(" into ")?;
        rt.write_all(lent)?;
        rt.print(" words")?;
        count = count.min(text::number(lent, 0) as usize);
    }
    let answer = formula_read::read(formula, &mut tree[..count]);
    print!(rt; "\t{} ", Judgement::of(&answer))?;
    match answer {
        Ok(()) => print_tree(rt, &tree),
        Err(_) => println!(rt; "{}", kept(&tree, 0)),
    }
}
