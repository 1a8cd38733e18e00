// What C gets of an answer.

ghost use Rattle.std.specs.Prelude.{◌≡◌};
ghost use Rattle.answer.specs.Answers.{number_of_answer, given_or};
ghost use Rattle.progressive_decoder.specs.Upgrade.{missing_bits};
ghost use Rattle.progressive_encoder.specs.Encode.{written_number};
ghost use Rattle.tarjimp.specs.Calls.{missing_numbers, written_counts};

use answer::Refusal;
use progressive_decoder::MissingBits;
use progressive_encoder::Written;

// The number to return, 0 where accepted. What the call gives goes to `given`, or `none` where it refuses.
pub fn hand_on<T: Copy>(answer: Result<T, Refusal>, given: &mut T, none: T) -> u8
    ensures { (result ≡ number_of_answer answer) × (given.new ≡ given_or none answer) }
{
    match answer {
        Ok(value) => {
            *given = value;
            0
        }
        Err(refusal) => {
            *given = none;
            refusal.number()
        }
    }
}

// The same of the bits that a pass missed: of the SRL stream, and of the raw stream.
pub fn hand_on_missing(answer: Result<MissingBits, Refusal>, missing: &mut [u32; 2]) -> u8
    ensures { (result ≡ number_of_answer answer) × (missing.new ≡ missing_numbers (given_or (missing_bits 0 0) answer)) }
{
    let none = MissingBits { srl: 0, raw: 0 };
    let mut bits = none;
    let number = hand_on(answer, &mut bits, none);
    *missing = [bits.srl, bits.raw];
    number
}

// The same of the bytes of both streams.
pub fn hand_on_written(answer: Result<Written, Refusal>, written: &mut [usize; 2]) -> u8
    ensures { (result ≡ written_number answer) × (written.new ≡ written_counts answer) }
{
    let none = Written { srl: 0, raw: 0 };
    let mut bytes = none;
    let number = hand_on(answer, &mut bytes, none);
    *written = [bytes.srl, bytes.raw];
    number
}
