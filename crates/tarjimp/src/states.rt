// The states of the SRL coders as numbers: what C hands in and gets back.

ghost use Rattle.std.specs.Prelude.{◌≡◌, Some, None, cond};
ghost use Rattle.tarjimp.specs.Inner.{flag_of};
ghost use Rattle.tarjimp.specs.States.{reader_fits, reader_of, reader_numbers, writer_fits, writer_of, writer_numbers};

use srl_decoder::SrlState;
use srl_encoder::SrlWriter;

// The flag that a number is.
fn flag_of(number: u64) -> Option<bool>
    ensures { result ≡ flag_of number }
{
    match number {
        0 => Some(false),
        1 => Some(true),
        _ => None,
    }
}

// The decoder's state that five numbers are, where each fits its field.
pub fn reader_of(s: [u64; 5]) -> Option<SrlState>
    ensures { result ≡ cond (reader_fits s) (Some (reader_of s)) None }
{
    let bit_idx = u8::try_from(s[1]).ok()?;
    let kp = u8::try_from(s[2]).ok()?;
    let nonzero_pending = flag_of(s[4])?;
    Some(SrlState {
        reader: bits::reader::BitReader {
            byte_idx: s[0] as usize,
            bit_idx,
        },
        kp,
        zero_run_remaining: s[3] as usize,
        nonzero_pending,
    })
}

// The five numbers of a decoder's state.
pub fn reader_numbers(st: SrlState) -> [u64; 5]
    ensures { result ≡ reader_numbers st }
{
    let at = st.reader;
    [
        at.byte_idx as u64,
        at.bit_idx as u64,
        st.kp as u64,
        st.zero_run_remaining as u64,
        st.nonzero_pending as u64,
    ]
}

// The encoder's state that four numbers are, where each fits its field.
pub fn writer_of(s: [u64; 4]) -> Option<SrlWriter>
    ensures { result ≡ cond (writer_fits s) (Some (writer_of s)) None }
{
    Some(SrlWriter {
        kp: u8::try_from(s[0]).ok()?,
        pending_zeros: s[1] as usize,
        current: u8::try_from(s[2]).ok()?,
        bit_count: u8::try_from(s[3]).ok()?,
    })
}

// The four numbers of an encoder's state.
pub fn writer_numbers(st: SrlWriter) -> [u64; 4]
    ensures { result ≡ writer_numbers st }
{
    [
        st.kp as u64,
        st.pending_zeros as u64,
        st.current as u64,
        st.bit_count as u64,
    ]
}
