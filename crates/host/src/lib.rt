// What C and Rust hosts call beside the job table: a fresh table, the interpreter itself, and the check of one part alone.
#![tactic(auto)]

pub mod check;
pub mod direct;
pub mod fresh;
