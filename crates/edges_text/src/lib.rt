// What the cases of `edges` and `edges_reasons` are read by: input into a buffer, parts of a text, the notation of repeats, lent words, and
// the rows of a plan.
// Printing is in `edges_print`; which calls of the library are made, and what is shown of them, is in `edges_calls` and the two programs.
#![tactic(auto)]

pub mod input;
pub mod notation;
pub mod rows;
pub mod text;
pub mod words;
