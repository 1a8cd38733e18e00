// A tile that is its target cut at its positions, sharpened by any list of passes of the symmetric writer, ends at the target cut at the last
// positions: theorems, each the contract of a function that does nothing. docs/LADDER.md says in words what is claimed.

#![tactic(auto)]

ghost use Rattle.ladder.specs.Levels.{LevelLaw};
ghost use Rattle.ladder.specs.Ladder.{LadderDoesNotMatter};
ghost use Rattle.ladder.specs.Corollaries.{SameEnd, NothingRefused, WholeAtZero, CutsFit, HypothesesMet};

// Whatever rows lie between: no call is refused, and what is left is the target cut at the last rows.
pub fn ladder_does_not_matter()
    ensures { LadderDoesNotMatter }
{}

// Two ladders from the same tile to the same last rows end at the same coefficients and signs.
pub fn same_end()
    ensures { SameEnd }
{}

// Neither a writing call, with outputs of the proved room, nor a reading one.
pub fn nothing_refused()
    ensures { NothingRefused }
{}

// Rows that are all 0 leave the target itself.
pub fn whole_at_zero()
    ensures { WholeAtZero }
{}

// The tiles of which all this is said are those that fit: each is its own coefficients, cut.
pub fn cuts_fit()
    ensures { CutsFit }
{}

// Every target, cut and loaded, is such a tile; one with -32768 and a negative bottom goes down to 0 in three passes.
pub fn hypotheses_met()
    ensures { HypothesesMet }
{}

// What a cut takes off a level, and what a lower position brings back: one law for both cuts.
pub fn level_law()
    ensures { LevelLaw }
{}
