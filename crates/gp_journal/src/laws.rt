ghost use Rattle.gp_journal.specs.State.{code_of};
ghost use Rattle.gp_journal.specs.JournalLaw.{EpochsHold, UnrecordedStand, RowsAreFrozen, UnrecordedAddUp};
ghost use Rattle.gp_journal.specs.RunLaws.{PrefixesAreLegal, BornInOrder, StatusesMatchWorkers};
ghost use Rattle.gp_journal.specs.RunLaws.{QueueHoldsRunnable, EachWaitsOnce, WaitListsTellClocks};
ghost use Rattle.gp_journal.specs.RunLaws.{RefuseLeavesAll, RunsEndOneWay};
ghost use Rattle.gp_journal.specs.NumberLaws.{EntriesAreCounted, NumbersHold, EntriesAreBounded, ClocksAreBelow, EpochsAreOrdered};
ghost use Rattle.gp_journal.specs.ProfilesLaw.{RecordsGrow, RecordsAreCounted, RecordsAreFrozen};
ghost use Rattle.gp_journal.specs.RecordsNamed.{RecordsAreThere};
ghost use Rattle.gp_journal.specs.WaitsLaw.{WaitsGrow, ContentionsGrow, WaitsAreForeseen, WaitsAreShort};
ghost use Rattle.gp_journal.specs.StepLaws.{OthersStay, EpochsStay, QueueAfter, OverStays, NothingAfterComplete};
ghost use Rattle.gp_journal.specs.Worked.{SmallExamples, SmallestProgram, smallest, WokenBetween, wake, RoomForTwo, pair};
ghost use Rattle.gp_journal.specs.Worked.{ContendedMutex, contended, Deadlocks, deadlocked, FaultOfUnlock};
ghost use Rattle.gp_journal.specs.Worked.{faulty, Ticks, six, FullJournal, long};

/// The journal law, of every legal journal of every program: what epochs say at each step, that goroutines which
/// have still to be recorded stand where they stood as the profile was opened, a wake included, and that the rows
/// taken at the Record entries are the frozen ones. Rows taken and goroutines still to be recorded add up.
pub fn law_journal()
    ensures epochs { EpochsHold }
    ensures unrecorded { UnrecordedStand }
    ensures rows { RowsAreFrozen }
    ensures add_up { UnrecordedAddUp }
{}

/// The records of the goroutine profiles of every legal journal of every program: how they grow with each entry, how
/// many there are, that they show what was there as each profile was opened once none is active, and, where the
/// program's parts lie in their limits, that the functions of their frames and their label sets are there.
pub fn law_records()
    ensures grow { RecordsGrow }
    ensures counted { RecordsAreCounted }
    ensures frozen { RecordsAreFrozen }
    ensures there { RecordsAreThere }
{}

/// The waits of every legal journal of every program, those that its Ops end and those at its contended unlocks: how they
/// grow with each entry, that what is foreseen of an Op tells them, and that none takes longer than the run so far.
pub fn law_waits()
    ensures ended { WaitsGrow }
    ensures contended { ContentionsGrow }
    ensures foreseen { WaitsAreForeseen }
    ensures short { WaitsAreShort }
{}

/// Laws of legal journals: prefixes, births in order, on which worker a goroutine runs, who stands in the queue, waits
/// and the clocks at which they began, what a refused profile leaves, and how runs end.
pub fn law_runs()
    ensures prefixes { PrefixesAreLegal }
    ensures births { BornInOrder }
    ensures workers { StatusesMatchWorkers }
    ensures queue { QueueHoldsRunnable }
    ensures waits { EachWaitsOnce }
    ensures clocks { WaitListsTellClocks }
    ensures refused { RefuseLeavesAll }
    ensures ends { RunsEndOneWay }
{}

/// Bounds on the numbers of legal journals: entries, clock, slices, births, epochs and the clocks of goroutines.
pub fn law_numbers()
    ensures counted { EntriesAreCounted }
    ensures numbers { NumbersHold }
    ensures entries { EntriesAreBounded }
    ensures come { ClocksAreBelow }
    ensures ordered { EpochsAreOrdered }
{}

/// Laws on single entries of legal journals: they leave the workers that don't make them, Open and Close alone change
/// epochs, who joins the queue and leaves it, a run that is over stays over, and nothing comes after a complete run.
pub fn law_entries()
    ensures others { OthersStay }
    ensures epochs { EpochsStay }
    ensures queue { QueueAfter }
    ensures over { OverStays }
    ensures complete { NothingAfterComplete }
{}

/// Worked journals of small programs: legal ones, with what the last state tells and the rows frozen at an Open, and
/// ones that aren't legal any more with one entry put at their end.
pub fn law_worked()
    ensures smallest { SmallestProgram (code_of smallest) }
    ensures woken { WokenBetween (code_of wake) }
    ensures room { RoomForTwo (code_of pair) }
    ensures contended { ContendedMutex (code_of contended) }
    ensures deadlock { Deadlocks (code_of deadlocked) }
    ensures fault { FaultOfUnlock (code_of faulty) }
    ensures ticks { Ticks (code_of six) }
    ensures full { FullJournal (code_of long) }
    ensures examples { SmallExamples }
{}
