// The steps of an upgrade pass: what it does in each band, and from which stream a place has its value. The reader and the writer of a pass
// share it.

#![tactic(auto)]

ghost use Rattle.std.specs.Prelude.{Bool, ◌≡◌, ◌<◌, get_or};
ghost use Rattle.bands.specs.Bands.{bands_of};
ghost use Rattle.bands.specs.Tables.{band_ends};
ghost use Rattle.upgrade_steps.specs.Steps.{step_at};
ghost use Rattle.upgrade_steps.specs.Counts.{FewSrlValues};
ghost use Rattle.upgrade_steps.specs.Inner.{band_step, from_srl, SameStep};

pub mod positions;

// What a pass does in a band.
#[derive(Clone, Copy)]
pub struct BandStep {
    pub bottom: bool,
    pub width: u8,
    pub position: u8,
}

// What a pass does in the band numbered `b`.
pub fn band_step(b: usize, prev: u8, curr: u8) -> BandStep
    ensures { band_step result ≡ step_at b prev curr }
{
    BandStep {
        bottom: b == 9,
        width: prev.saturating_sub(curr),
        position: curr,
    }
}

// Places in a row that have the same step: the step, and where they end.
#[derive(Clone, Copy)]
pub struct Stretch {
    pub step: BandStep,
    pub to: usize,
}

// The places from the one at which a walk stands on to the end of its band, by the table of places and the ends of the bands.
pub fn stretch_at(
    table: &[u8; 4096],
    ends: [usize; 10],
    prev: [u8; 10],
    curr: [u8; 10],
    place: usize,
) -> Stretch
    requires { (place < 4096) × (get_or table.now place 0 < 10) }
    ensures { (e : Bool) → table.now ≡ bands_of e → ends ≡ band_ends e
        → SameStep e prev curr place result.to (band_step result.step) }
{
    let b = usize::from(table[place]);
    Stretch {
        step: band_step(b, prev[b], curr[b]),
        to: ends[b],
    }
}

// Whether a place of a band that is not skipped has an SRL value.
pub fn from_srl(t: BandStep, s: i8) -> bool
    ensures { result ≡ from_srl (band_step t) s }
{
    !t.bottom && fixed::is_zero_sign(s)
}

// A pass over a component has at most 4,032 SRL values, 4,015 in the reduce-extrapolate layout.
pub fn few_srl_values()
    ensures { FewSrlValues }
{}
