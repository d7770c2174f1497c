// The listing of one part at some increment, for the programs that each print it at their own.
#![tactic(auto)]

mod input;
mod list;
pub mod program;
mod records;
mod text;
