// The job table: slots, keys and part numbers. What other crates may use is public, and asks nothing of a caller.
#![tactic(auto)]

mod drain;
mod entries;
pub mod jobs;
mod refusal;
mod submit;
pub mod table;
mod take;
