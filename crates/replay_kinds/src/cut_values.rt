// Kind 46, `decode`: what it makes of a stream that is cut.
use crate::srl_exhaustive;

// A digest with 4,096 values of 15 bits of a stream more.
pub fn with_values(digest: u64, src: &[u8]) -> u64 {
    srl_exhaustive::with_decoded(digest, src, &mut [0; 4096], 4096, 15)
}
