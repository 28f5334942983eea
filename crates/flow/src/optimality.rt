// The theorems on which the search rests. Nothing is computed here: each function's contract demands a proof.
ghost use Rattle.flow.specs.Optimality.{Sufficient, Necessary, Shifting};

use worth::kind::Worth;

// Potentials that fit a circulation show that none within the capacities is worth more.
pub fn potentials_suffice<W: Worth>()
    ensures { Sufficient W.ops }
{}

// A circulation than which none is worth more has potentials that fit, each of size at most the number of nodes.
pub fn potentials_exist<W: Worth>()
    ensures { Necessary W.ops }
{}

// Flow shifted along a cycle stays a circulation within the capacities, and its worth rises by the cycle's gain taken amount times.
pub fn shift_is_sound<W: Worth>()
    ensures { Shifting W.ops }
{}
