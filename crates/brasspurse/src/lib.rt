// The C interface: numbers, byte slices and flat structs by value. Every answer says in a number of its own which case it is.
#![tactic(auto)]

pub mod frames;
pub mod permutations;
pub mod reads;
pub mod sections;
pub mod unwind;
pub mod words;
