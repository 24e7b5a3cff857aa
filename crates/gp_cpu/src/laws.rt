ghost use Rattle.gp_cpu.specs.BatchLaw.{PiecesAreBatches, PiecesStayWhole};
ghost use Rattle.gp_cpu.specs.SamplesLaw.{SamplesBegin, SamplesGrow, SamplesWorkedOut};
ghost use Rattle.gp_cpu.specs.SumsLaw.{SumsBegin, SumsGrow, SumsAreShares};

/// Laws of the samples of all journals: they begin with the rate record, and with each further entry have what it samples
/// behind the others. Those of a small journal are worked out.
pub fn law_samples()
    ensures begin { SamplesBegin }
    ensures grow { SamplesGrow }
    ensures worked { SamplesWorkedOut }
{}

/// Whole records that a ring has unread are a batch: they may be added, and what is added are the ring's records. And every
/// call of a ring leaves its unread records whole.
pub fn law_batches()
    ensures batches { PiecesAreBatches }
    ensures stay { PiecesStayWhole }
{}

/// Laws of the sums of all lists of records: they begin with none, have each further record more, and are together the
/// samples that all records stand for.
pub fn law_sums()
    ensures begin { SumsBegin }
    ensures grow { SumsGrow }
    ensures shares { SumsAreShares }
{}
