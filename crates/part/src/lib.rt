// Interprets one part of presentation text. What other crates may use is public, and asks nothing of a caller.
#![tactic(auto)]

pub mod bools;
mod faults;
pub mod interpret;
mod moves;
pub mod numbers;
mod perform;
mod presenting;
pub mod ranges;
mod reader;
mod record;
mod rules;
mod run;
mod settings;
pub mod shapes;
pub mod sheet;
mod show;
mod text;
mod types;
mod values;
pub mod whole;
