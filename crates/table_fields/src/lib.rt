// Lines of a job file taken apart, and numbers as bytes, for the crates above.
// What is judged of a line is in `table_line_checks`, what it prints in `table_jobs`; how lines are found in the input is in `table_steps`.
#![tactic(auto)]

pub mod fields;
pub mod numerals;
pub mod writer;
