// Lists one part from standard input at eight lines to the inch: how much was read, its records, and how it ended.
#![tactic(auto)]

use lister::program::list_input;
use std::process::ExitCode;

fn main(rt: HostRuntime) -> ExitCode {
    list_input(&rt, 180)
}
