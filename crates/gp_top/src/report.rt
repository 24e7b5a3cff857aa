ghost use Rattle.std.specs.Prelude.{◌≡◌, ◌<◌, ◌^◌, IfOk};
ghost use Rattle.gp_journal.specs.Settings.{AreInRange};
ghost use Rattle.gp_journal.specs.State.{code_of};
ghost use Rattle.gp_journal.specs.Run.{state_of, IsFinished};
ghost use Rattle.gp_journal.specs.Profiles.{records_of};
ghost use Rattle.gp_journal.specs.Told.{done_of, made_of};
ghost use Rattle.gp_events.specs.Sums.{sums};
ghost use Rattle.gp_history.specs.Events.{block_events, mutex_events};
ghost use Rattle.gp_ring.specs.Records.{Covers};
ghost use Rattle.gp_cpu.specs.Samples.{samples_of_journal};
ghost use Rattle.gp_samples.specs.RunRing.{BeginWithHead};
ghost use Rattle.gp_top.specs.Report as definition;
ghost use Rattle.gp_top.specs.Report.{IsReport, ring_records};
ghost use Rattle.gp_top.specs.kept.Steps.{IsRan};

use gp_cpu::{Collector, CpuRecords};
use gp_events::{Buckets, Sums};
use gp_isa::{Memory, Program, Sequence};
use gp_machine::{Counts, Entry, Machine, Refusals, Run};
use gp_report::Report;
use gp_stack::Profiles;
use std::alloc::Global;

/// A run that is complete, whoever made it: its machine, the records of its profiles, the sums of its block and of its mutex
/// events, what its reader took, the instructions of each worker, and the entries of each actor.
#[derive(Drop)]
pub(crate) struct Complete<R: Run> {
    pub machine: Machine<R>,
    pub records: Profiles,
    pub block: Buckets,
    pub mutex: Buckets,
    pub cpu: Collector,
    pub done: Counts,
    pub made: Counts,
}

/// What is left of a run that is complete: its report, its clock, and the sums of its block and of its mutex events, in the
/// order of a profile.
#[derive(Drop)]
pub(crate) struct Ran {
    pub report: Report,
    pub clock: u64,
    pub block: Sums,
    pub mutex: Sums,
}

// The room and the number of live goroutines of each Refuse entry.
fn refusals(alloc: Global, journal: &[Entry]) -> Result<Refusals, Memory>
    ensures { IfOk result (λ refused. refused ≡ definition.refusals journal.now) }
{
    let mut refused = Vec::new(alloc);
    for made in journal {
        if let Entry::Refuse { room, n } = *made {
            refused.push((room, n))?;
        }
    }
    Ok(Sequence::from_vec(refused))
}

// The report of a run that is complete.
fn report_of<R: Run>(
    alloc: Global,
    machine: Machine<R>,
    goroutine_records: Profiles,
    cpu_records: CpuRecords,
    done: Counts,
    made: Counts,
) -> Result<Report, Memory>
    requires finished { IsFinished (code_of R.program) R.settings machine }
    requires records { goroutine_records ≡ records_of (code_of R.program) R.settings machine }
    requires covered { Covers (ring_records cpu_records) (samples_of_journal (code_of R.program) R.settings machine) }
    requires begun { BeginWithHead R.program R.settings machine (ring_records cpu_records) }
    requires done { done ≡ done_of (state_of R.program R.settings machine) }
    requires made { made ≡ made_of R.settings machine }
    ensures report { IfOk result (IsReport R.program R.settings) }
    ensures journal { IfOk result (λ report. report.journal ≡ machine) }
    ensures cpu { IfOk result (λ report. report.cpu_records ≡ cpu_records) }
{
    let refused = refusals(alloc, machine.journal())?;
    let ended = machine.ended();
    let born = machine.births();
    let live = machine.live();
    Ok(Report {
        journal: machine.into_journal(),
        cpu_records,
        goroutine_records,
        refused,
        done,
        made,
        ended,
        born,
        live,
    })
}

// The clock of a run.
fn clock<R: Run>(machine: &Machine<R>) -> u64
    requires { AreInRange R.settings }
    ensures clock { result ≡ (state_of R.program R.settings machine.now).clock }
    ensures fits { result < 2 ^ 53 }
{
    // (it has no effect, but tells that the journal is legal)
    let _ = machine.journal();
    machine.clock()
}

/// Reports on a run that is complete.
pub(crate) fn report_on<R: Run>(
    alloc: Global,
    program: &Program,
    complete: Complete<R>,
) -> Result<Ran, Memory>
    requires program { program.now ≡ R.program }
    requires range { AreInRange R.settings }
    requires finished { IsFinished (code_of R.program) R.settings complete.machine }
    requires records { complete.records ≡ records_of (code_of R.program) R.settings complete.machine }
    requires block { complete.block ≡ sums (block_events (code_of R.program) R.settings complete.machine) }
    requires mutex { complete.mutex ≡ sums (mutex_events (code_of R.program) R.settings complete.machine) }
    requires covered { Covers (ring_records complete.cpu) (samples_of_journal (code_of R.program) R.settings complete.machine) }
    requires begun { BeginWithHead R.program R.settings complete.machine (ring_records complete.cpu) }
    requires done { complete.done ≡ done_of (state_of R.program R.settings complete.machine) }
    requires made { complete.made ≡ made_of R.settings complete.machine }
    ensures ran { IfOk result (IsRan R.program R.settings) }
    ensures journal { IfOk result (λ ran. ran.report.journal ≡ complete.machine) }
    ensures cpu { IfOk result (λ ran. ran.report.cpu_records ≡ complete.cpu) }
{
    let Complete {
        machine,
        records,
        block,
        mutex,
        cpu,
        done,
        made,
    } = complete;
    let clock = clock(&machine);
    let report = report_of(alloc, machine, records, cpu.into_records(), done, made)?;
    Ok(Ran {
        report,
        clock,
        block: block.sorted(alloc, program)?,
        mutex: mutex.sorted(alloc, program)?,
    })
}
