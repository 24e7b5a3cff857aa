ghost use Rattle.gp_sim.specs.ChoiceLaw.{ChoiceIsLegal, TurnsAreLegal, EndIsComplete, SimIsFinished, SimIsCovered, SimBeginsWithHead};

/// Laws of the choice by numbers, after every legal journal of every program: whatever the actors that can act would do
/// is legal, so the entry of a turn is, and where no worker and no profiler can act the run is complete. So the journal that
/// the choice gives is finished: no numbers lead it into a run without end, or one that is cut off. And the records that the
/// reader takes cover the samples of that journal and begin with their head.
pub fn law_choice()
    ensures legal { ChoiceIsLegal }
    ensures turns { TurnsAreLegal }
    ensures ends { EndIsComplete }
    ensures finished { SimIsFinished }
    ensures covered { SimIsCovered }
    ensures head { SimBeginsWithHead }
{}
