// Cases of single calls: chains, those of tables that run backwards too, the probe, and a formula that is read.
// Plans, compiled formulas and job files are in `edges`, and so is which line is a case of what.
#![tactic(auto)]

pub mod backward;
pub mod chains;
pub mod formulas;
pub mod probes;
