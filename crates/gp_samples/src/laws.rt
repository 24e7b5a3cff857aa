ghost use Rattle.gp_samples.specs.RunRingLaw.{BegunIsKept, EntriesKeep, ReadsKeep, SamplesAreOfferable, BodiesAreSampled};
ghost use Rattle.gp_samples.specs.RunRingLaw.{EndIsAllRead, RoundedIsNext};
ghost use Rattle.gp_samples.specs.RunEndsLaw.{OffersGrow, SamplesMayBeWritten, SettledIsAllRead};

/// Laws of the ring of every run: as it begins it is kept for the empty journal, and it stays kept with each entry, where
/// what that samples is offered to it, and with each read. What an entry samples may be offered, and the sample of a body
/// that stands where its goroutine does is that one's. Once the ring is closed and read to its end, the records cover the
/// samples of the journal and begin with their head. Its sizes are the next powers of two.
pub fn law_run_ring()
    ensures begun { BegunIsKept }
    ensures entries { EntriesKeep }
    ensures reads { ReadsKeep }
    ensures offerable { SamplesAreOfferable }
    ensures bodies { BodiesAreSampled }
    ensures end { EndIsAllRead }
    ensures sizes { RoundedIsNext }
{}

/// Laws of the two ends of the ring of every run that two threads share. With each entry the offers grow by what that samples. What
/// an entry samples may be offered, while the journal has room for it. Once the reader has taken in the writer, which was closed,
/// the records that it took cover the samples of the journal and begin with their head.
pub fn law_run_ends()
    ensures entries { OffersGrow }
    ensures writable { SamplesMayBeWritten }
    ensures end { SettledIsAllRead }
{}
