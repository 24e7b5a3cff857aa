ghost use Rattle.gp_ring.specs.Calls.{AllIsCovered, TheHeadIsDelivered, NothingIsLost, TheEndIsTheEnd, CallsKeepFollowing, EmptyFollows};

/// Laws over every list of calls, in whatever order writes, looks, acts and the close come.
pub fn law_ring()
    ensures covered { AllIsCovered }
    ensures head { TheHeadIsDelivered }
    ensures lossless { NothingIsLost }
    ensures end { TheEndIsTheEnd }
    ensures follows { CallsKeepFollowing }
    ensures empty { EmptyFollows }
{}
