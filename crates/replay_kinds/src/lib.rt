// Kinds 1 to 34: whether the port agrees with what the Rust answered, of `fixed`, `bands` and `srl`; and the streams of kind 46, with what
// `decode` makes of them. oracle/README.md lists the kinds.
// Each function is proved safe and to end.
#![tactic(auto)]

pub mod cut_streams;
pub mod cut_values;
pub mod leaves;
pub mod srl_decode;
pub mod srl_encode;
pub mod srl_exhaustive;
