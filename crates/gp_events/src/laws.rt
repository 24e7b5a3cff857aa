ghost use Rattle.gp_events.specs.SumsLaw.{SumsBegin, SumsGrow, SumsAreShares};
ghost use Rattle.gp_events.specs.FractionLaw.{ChoicesAreNumbered, FirstWords};

/// Laws of the sums of all lists of events: they begin with none, have each further event more, and are together what
/// all events count and delay.
pub fn law_sums()
    ensures begin { SumsBegin }
    ensures grow { SumsGrow }
    ensures shares { SumsAreShares }
{}

/// Which event is kept at a fraction is told by the seed and its number, whatever was asked before. The first words at
/// seed 42 are worked out.
pub fn law_fraction()
    ensures numbered { ChoicesAreNumbered }
    ensures words { FirstWords }
{}
