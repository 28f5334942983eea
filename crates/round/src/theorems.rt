ghost use Rattle.round.specs.Uses.{EachBuilt, RoundsBuilt};

// Each sound book is left by some calls on one open round; so is what any open round holds, however a program came by it.
pub fn rounds_stand()
    ensures books { EachBuilt }
    ensures rounds { RoundsBuilt }
{}
