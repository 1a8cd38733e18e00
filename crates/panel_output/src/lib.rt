// What `panel` writes: its report, refusals of the port in words, and images in files that appear whole or not at all. Each function is proved
// safe and to end.
#![tactic(auto)]

pub mod files;
pub mod images;
pub mod ladder;
pub mod places;
pub mod refusals;
pub mod report;
