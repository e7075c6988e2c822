// The row explainer: reads a job file from standard input and writes to standard output why rows of each job's plan are still there.
#![tactic(auto)]

use std::io;
use table::Tool;

fn main(rt: HostRuntime) -> io::Result<()> {
    table_runs::run(&rt, &mut rt.stdin(), Tool::Reasons)
}
