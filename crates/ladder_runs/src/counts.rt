// What ladders came to, counted.
use answer::Refusal;

#[derive(Clone, Copy, Default)]
pub struct Counts {
    // Ladders, and those of their passes that were accepted.
    pub ladders: u64,
    pub passes: u64,
    // Ladders with a pass that is refused with 5, and with another number.
    pub refused_by_5: u64,
    pub refused: u64,
    // Ladders that end elsewhere, and that end as they should.
    pub elsewhere: u64,
    pub good: u64,
    // Single differences.
    pub differences: u64,
}

impl Counts {
    // One ladder, by its accepted passes and how it ended: its differences or its refusal.
    pub fn one(passes: u16, end: Result<u64, Refusal>) -> Counts {
        let mut counts = Counts::default();
        counts.ladders = 1;
        counts.passes = u64::from(passes);
        match end {
            Ok(0) => counts.good = 1,
            Ok(differences) => {
                counts.elsewhere = 1;
                counts.differences = differences;
            }
            Err(Refusal::MagnitudeOutOfRange) => counts.refused_by_5 = 1,
            Err(_) => counts.refused = 1,
        }
        counts
    }

    pub fn plus(self, other: Counts) -> Counts {
        Counts {
            ladders: self.ladders.wrapping_add(other.ladders),
            passes: self.passes.wrapping_add(other.passes),
            refused_by_5: self.refused_by_5.wrapping_add(other.refused_by_5),
            refused: self.refused.wrapping_add(other.refused),
            elsewhere: self.elsewhere.wrapping_add(other.elsewhere),
            good: self.good.wrapping_add(other.good),
            differences: self.differences.wrapping_add(other.differences),
        }
    }

    // With differences more.
    pub fn with_differences(self, n: u64) -> Counts {
        let mut counts = self;
        counts.differences = self.differences.wrapping_add(n);
        counts
    }
}
