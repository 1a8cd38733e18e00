// Streams of bits, highest bit of each byte first: one reader and one writer, which serve the SRL stream and the raw stream alike.
#![tactic(auto)]

pub mod reader;
pub mod writer;
