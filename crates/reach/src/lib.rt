// What any list of upgrade passes can make of a tile, exactly: theorems, each the contract of a function that does nothing.
// docs/REACH.md says in words what is claimed and where it stands.

#![tactic(auto)]

ghost use Rattle.reach.specs.Reach.{ReachablePictures};
ghost use Rattle.reach.specs.Corollaries.{FittingPreserved, NonzeroSignsKept, OwnSignInWords, HypothesesMet};
ghost use Rattle.reach.specs.Undecided.{UndecidedFalls};

// For every tile that fits and every list of passes of which none raises a position: what can be reached is exactly what the description says.
pub fn reachable_pictures()
    ensures { ReachablePictures }
{}

// A tile that fits still fits after any such list.
pub fn fitting_preserved()
    ensures { FittingPreserved }
{}

// Passes keep every nonzero sign, and in a tile that fits a minus stays a minus.
pub fn nonzero_signs_kept()
    ensures { NonzeroSignsKept }
{}

// What it is for a sign to be the coefficient's own, clause by clause.
pub fn own_sign_in_words()
    ensures { OwnSignInWords }
{}

// The theorem's hypotheses are met by the fresh tile, by loaded tiles and by a list with a refused pass; and more is reached than the start.
pub fn hypotheses_met()
    ensures { HypothesesMet }
{}

// An accepted pass lowers the numbers of zero signs by exactly the signs that it sets, and a list of passes from a tile that fits never gets refusal 8.
pub fn undecided_falls()
    ensures { UndecidedFalls }
{}
