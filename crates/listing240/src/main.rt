// Lists one part from standard input at six lines to the inch, as document 01 has it: how much was read, its records, and how it ended.
#![tactic(auto)]

use lister::program::list_input;
use std::process::ExitCode;

fn main(rt: HostRuntime) -> ExitCode {
    list_input(&rt, 240)
}
