// What C and Rust link, as libbrasspurse.a: each export calls the library's function of its name, and promises what that one promises.
#![tactic(auto)]

mod frames;
mod permutations;
mod reads;
mod sections;
mod unwind;
mod words;
