// Refusals: why a call refuses what it was given (docs/SCOPE.md, "Refusals"). A call answers `Ok` where it accepts, and else the refusal.

#![tactic(auto)]

ghost use Rattle.std.specs.Prelude.{◌≡◌};
ghost use Rattle.answer.specs.Answers.{number_of, number_of_answer, Numbered, AnswerNumbers};

use std::error::Error;
use std::fmt;

// In the words of the source's errors.
#[derive(Clone, Copy, Debug, PartialEq, Eq, Hash)]
pub enum Refusal {
    SliceTooShort,
    OutOfDomain,
    StandardLayout,
    InvalidBitCount,
    MagnitudeOutOfRange,
    ZeroRunTooLong,
    OutputTooShort,
    ImpossibleState,
}

// A number that no refusal has.
#[derive(Clone, Copy, Debug, PartialEq, Eq, Hash)]
pub struct UnknownNumber(pub u8);

impl Refusal {
    // Its number: 1 to 8.
    pub fn number(self) -> u8
        ensures { result ≡ number_of self }
    {
        match self {
            Refusal::SliceTooShort => 1,
            Refusal::OutOfDomain => 2,
            Refusal::StandardLayout => 3,
            Refusal::InvalidBitCount => 4,
            Refusal::MagnitudeOutOfRange => 5,
            Refusal::ZeroRunTooLong => 6,
            Refusal::OutputTooShort => 7,
            Refusal::ImpossibleState => 8,
        }
    }
}

impl TryFrom<u8> for Refusal {
    type Error = UnknownNumber;

    ghost try_from_gives = { Numbered };

    fn try_from(number: u8) -> Result<Self, UnknownNumber> {
        match number {
            1 => Ok(Refusal::SliceTooShort),
            2 => Ok(Refusal::OutOfDomain),
            3 => Ok(Refusal::StandardLayout),
            4 => Ok(Refusal::InvalidBitCount),
            5 => Ok(Refusal::MagnitudeOutOfRange),
            6 => Ok(Refusal::ZeroRunTooLong),
            7 => Ok(Refusal::OutputTooShort),
            8 => Ok(Refusal::ImpossibleState),
            _ => Err(UnknownNumber(number)),
        }
    }
}

impl fmt::Display for Refusal {
    fn fmt<W: fmt::Write>(&self, f: &mut fmt::Formatter<W>) -> fmt::Result {
        f.write_str(match self {
            Refusal::SliceTooShort =>
                "a slice is too short: coefficients, signs and scratch have 4096 elements, pixels 16384 bytes",
            Refusal::OutOfDomain => "a position or quantizer is above 15",
            Refusal::StandardLayout => "pixels are made in the reduce-extrapolate layout only",
            Refusal::InvalidBitCount => "an SRL width is outside 1 to 15",
            Refusal::MagnitudeOutOfRange => "a magnitude is above the maximum of its width",
            Refusal::ZeroRunTooLong => "more than 4096 zeros are pending",
            Refusal::OutputTooShort => "the answer does not fit the output slice",
            Refusal::ImpossibleState =>
                "the coder state is impossible, or the tile's numbers of zero signs are wrong",
        })
    }
}

impl fmt::Display for UnknownNumber {
    fn fmt<W: fmt::Write>(&self, f: &mut fmt::Formatter<W>) -> fmt::Result {
        write!(f, "no refusal has the number {}", self.0)
    }
}

impl Error for Refusal {}

impl Error for UnknownNumber {}

// The number of an answer: 0 where accepted.
pub fn number_of_answer(answer: Result<(), Refusal>) -> u8
    ensures { result ≡ number_of_answer answer }
{
    match answer {
        Ok(()) => 0,
        Err(refusal) => refusal.number(),
    }
}

// What a call answers has the number that the rules give, whatever it gives where it accepts, and each number is that of one refusal at most.
pub fn answer_numbers<T>()
    ensures { AnswerNumbers T }
{}
