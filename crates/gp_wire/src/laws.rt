ghost use Rattle.gp_wire.specs.RoundTrip.{RoundTrip};

/// What is written is read again: the canonical bytes of a valid profile, which `write` gives, give that profile, and
/// that is what `decode` reads.
pub fn law_round_trip()
    ensures { RoundTrip }
{}
