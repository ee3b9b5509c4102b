// Theory alone: memory, frames, prologues, and that a step over a frame undoes its prologue. There is no code.
#![tactic(auto)]
