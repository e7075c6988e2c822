// Folding as mathematics: the folded tree of a formula, its rows and its plan, what compiling answers, and the theorems about them. No code lives
// here; the code that folds is in the crates above.
#![tactic(auto)]
