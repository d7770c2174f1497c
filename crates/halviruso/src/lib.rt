// What C hosts link: each export hands on to the library's function of its name, under the same contract.
// It stays as it is for the C interface, which fixes each name, each parameter, and numbers for codes.
#![tactic(auto)]

mod alone;
mod table;
