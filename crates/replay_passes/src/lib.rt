// Kinds 36 to 38 and 47, the passes of kind 46, and what an upgrade of kind 40 is made of: all that takes `progressive` and no tile. Each function is
// proved safe and to end.
#![tactic(auto)]

pub mod cut_passes;
pub mod steps;
pub mod upgrade;
