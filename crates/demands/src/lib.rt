// The demands as theorems about the contracts of the public calls alone, and document 01's starred cases as one table; no code.
// proofs/Demands.antt is the page to read first. The calls themselves are in the crates below, their exports in `otterchime`.
#![tactic(auto)]
