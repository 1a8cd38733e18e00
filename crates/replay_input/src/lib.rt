// What replaying takes beside the port: numbers in recorded bytes, components made of a seed, digests, outputs, the kinds of
// cases, and what is written. Each function is proved safe and to end.
#![tactic(auto)]

pub mod component;
pub mod digests;
pub mod kind;
pub mod number;
pub mod outputs;
pub mod report;
