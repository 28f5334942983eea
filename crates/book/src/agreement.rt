ghost use Rattle.book.specs.Agreement.{ArcsArePlaced, AllowedIsCirculation, CirculationIsFilled, FillingKeepsUnits, AlikeAreFilledAlike, BestIsBestCirculation, BestHasPotentials, NetworkStandsFor, MoneyIsPayoffs, MoneyThenWeeks, NetworkIsSound, FlowingIsSound};

use worth::kind::Worth;

// Where the arc of each holding, line and offer stands.
pub fn arcs_are_placed()
    ensures { ArcsArePlaced }
{}

// An allotment is allowed exactly when the flows that it fills the network with stay within the capacities and form a circulation.
pub fn allowed_is_circulation<W: Worth>()
    ensures { AllowedIsCirculation W.ops }
{}

// Every circulation within the capacities is the filling of the allotment that it puts on the lines, which is allowed.
pub fn circulation_is_filled<W: Worth>()
    ensures circulation_is_filled { CirculationIsFilled W.ops }
    ensures units { FillingKeepsUnits }
    ensures alike { AlikeAreFilledAlike }
{}

// An allowed allotment is best exactly when its flows are best, and then there are potentials that fit, each of size at most the number of nodes.
pub fn best_is_best_circulation<W: Worth>()
    ensures best_is_best_circulation { BestIsBestCirculation W.ops }
    ensures potentials { BestHasPotentials W.ops }
{}

// Flows that circulate within the capacities stand for an allowed allotment, which is best exactly when they are.
pub fn network_stands_for<W: Worth>()
    ensures { NetworkStandsFor W.ops }
{}

// By money an allotment is worth the sum of the payoffs, and by money then weeks that and the weeks got.
pub fn money_is_payoffs()
    ensures money_is_payoffs { MoneyIsPayoffs }
    ensures weeks { MoneyThenWeeks }
{}

// The network of a book is within the bounds of networks.
pub fn network_is_sound()
    ensures network_is_sound { NetworkIsSound }
    ensures flowing { FlowingIsSound }
{}
