// The table printer: reads a job file from standard input and writes each job's points to standard output.
#![tactic(auto)]

use std::io;
use table::Tool;

fn main(rt: HostRuntime) -> io::Result<()> {
    table_runs::run(&rt, &mut rt.stdin(), Tool::Tables)
}
