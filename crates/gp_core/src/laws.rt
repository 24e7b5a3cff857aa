ghost use Rattle.gp_journal.specs.State.{code_of};
ghost use Rattle.gp_journal.specs.Worked.{wake, pair};
ghost use Rattle.gp_core.specs.CoreLaws.{InvariantHolds, CopiesAreFrozen};
ghost use Rattle.gp_core.specs.WorkedEvents.{WokenCore, RefusedEvents};

/// The invariant of the core, of every program, all options in range and every list of events from the first state on,
/// each enabled where it comes: the journal is legal, and words, hands, bodies and copies stay in step with it.
pub fn law_invariant()
    ensures { InvariantHolds }
{}

/// Of every such list of events: each copy in the records is what its goroutine's row was as the profile was opened in
/// which it was recorded.
pub fn law_copies()
    ensures { CopiesAreFrozen }
{}

/// Worked lists of events of two small programs: one with the journal that it adds and the copies that it records, and
/// ones that stop being allowed with one event more.
pub fn law_worked_events()
    ensures woken { WokenCore (code_of wake) }
    ensures refused { RefusedEvents (code_of pair) }
{}
