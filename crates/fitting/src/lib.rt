// When a component fits its positions, and a test of it that computes: what the theorems on lists of passes ask of a tile, place by place. The laws of
// levels, on which those theorems stand, are here too.

#![tactic(auto)]

ghost use Rattle.fitting.specs.Tested.{FitsTested};

// The tests hold for exactly the places and the components that fit.
pub fn fits_tested()
    ensures { FitsTested }
{}
