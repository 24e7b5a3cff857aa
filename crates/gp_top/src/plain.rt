ghost use Rattle.std.specs.Prelude.{◌≡◌, ◌≢◌, ◌≤◌, ◌⊎◌, ℕ, List, length, Some, IfSome, None, IsSomeAnd, IfOk, IfErr, OnOk, OnErr};
ghost use Rattle.gp_io.specs.Outside.{Rose};
ghost use Rattle.gp_isa.specs.Limits.{file_bytes};
ghost use Rattle.gp_isa.specs.declared.parts.Parts.{Parts};
ghost use Rattle.gp_journal.specs.Settings.{AreInRange};
ghost use Rattle.gp_journal.specs.declared.settings.Settings.{Settings};
ghost use Rattle.gp_gen.specs.Generated.{generated};
ghost use Rattle.gp_report.specs.Fault.{fault_line};
ghost use Rattle.gp_report.specs.declared.refusal.Fault.TheVariants.{Read, Usage};
ghost use Rattle.gp_words.specs.Words.{texts};
ghost use Rattle.gp_words.specs.declared.jobs.Job.TheVariants.{Run, Sim, Gen, Dump};
ghost use Rattle.gp_words.specs.Job.{job_of, HasRange};
ghost use Rattle.gp_words.specs.Read.{Names};
ghost use Rattle.gp_text.specs.Reading.{program_of, Gives};
ghost use Rattle.gp_wire.specs.Reading as reading;
ghost use Rattle.gp_wire.specs.declared.profile.Profile.{Profile};
ghost use Rattle.gp_top.specs.Exit.{exit_done, exit_usage, exit_refused, exit_read_fault, exit_put_fault, exit_fault};
ghost use Rattle.gp_top.specs.Exit.{exit_full, exit_memory};
ghost use Rattle.gp_top.specs.Report.{ByNumbers};
ghost use Rattle.gp_top.specs.Status.{status_of, status_of_run};
ghost use Rattle.gp_top.specs.Task.{read_task};
ghost use Rattle.gp_top.specs.Asked as promise;
ghost use Rattle.gp_top.specs.Asked.{asked_of, profile_bytes, GiveNoJob, HaveJob, HaveGood, IsAccepted, IsRefused, IsReadTo, IsReadWhole};
ghost use Rattle.gp_top.specs.Top.{IsRun, EndsWithoutReport, AskForGenerated, IsRefusal, IsWritten, TellsUsage, TellsRefused};
ghost use Rattle.gp_top.specs.declared.stop.Stop.TheVariants as stop;
ghost use Rattle.gp_top.specs.kept.Steps.{CameTo, WordsStop, LoadStops, RunStops, IsAfterRun};

use crate::dumping::dumped;
use crate::generate::generate;
use crate::load::load;
use crate::outcome::Outcome;
use crate::refusal::refuse;
use crate::running::run_whole;
use crate::status::MEMORY;
use crate::stop::Stop;
use gp_io::{Sink, Source, Store};
use gp_machine::Settings;
use gp_report::Fault;
use gp_words::{Job, cause, job};
use std::alloc::Global;

/// Whether words are of the command `run`.
pub(crate) fn is_run(words: &[String]) -> bool
    ensures { result ≡ promise.is_run (texts words.now) }
{
    match words.first() {
        Some(command) => command.as_str() == "run",
        None => false,
    }
}

// The words are of a command that isn't done without threads.
fn unknown() -> Stop
    ensures { result ≡ stop.Fault (Usage 0 1) }
{
    Stop::Fault(Fault::Usage {
        place: 0,
        cause: cause::BAD_COMMAND,
    })
}

// The job that the words ask for, which is no run on threads.
fn asked(alloc: Global, words: &[String]) -> Result<Job, Stop>
    ensures ok { IfOk result (λ job. asked_of (texts words.now) ≡ Names job) }
    ensures range { IfOk result HasRange }
    ensures stopped { IfErr result (WordsStop (asked_of (texts words.now))) }
{
    if is_run(words) {
        return Err(unknown());
    }
    Ok(job(alloc, words)?)
}

// Reads the program that the source holds, and runs it in the order that the options' numbers choose.
fn simulated<S: Source, K: Store, O: Sink>(
    alloc: Global,
    file: &str,
    settings: &Settings,
    source: &mut S,
    store: &mut K,
    out: &mut O,
) -> Result<Outcome, Stop>
    requires { AreInRange settings.now }
    ensures accepted { OnOk result ((program : Parts) × IsAccepted (S.left source.old) program) }
    ensures run { IfOk result (λ done. IfSome done.report (λ report. (program : Parts) × IsAccepted (S.left source.old) program
        × CameTo (read_task ByNumbers file.now settings.now program)
        (K.files store.old, K.asked store.old, K.faults store.old) (K.files store.new, K.asked store.new, K.faults store.new)
        (O.written out.old, O.faults out.old) (O.written out.new, O.faults out.new) done.status report)) }
    ensures no_report { IfOk result (λ done. done.report ≡ None → done.status ≡ exit_memory) }
    ensures nothing_put { IfOk result (λ done. done.report ≡ None → store.new ≡ store.old) }
    ensures memory { IfOk result (λ done. done.status ≡ exit_memory → out.new ≡ out.old) }
    ensures after_run { IfOk result (λ done. IsAfterRun done.status) }
    ensures whole { OnOk result (IsReadTo file_bytes (S.left source.old) (S.left source.new)) }
    ensures read_well { OnOk result (S.faults source.new ≡ S.faults source.old) }

    ensures none_put { OnErr result (store.new ≡ store.old) }
    ensures none_written { OnErr result (out.new ≡ out.old) }
    ensures stopped { IfErr result (LoadStops S.left S.faults source.old source.new) }
{
    let program = load(alloc, source)?;
    Ok(run_whole(alloc, &program, file, settings, store, out))
}

// Does the job that the words ask for.
fn perform<S: Source, K: Store, O: Sink>(
    alloc: Global,
    words: &[String],
    source: &mut S,
    store: &mut K,
    out: &mut O,
) -> Result<Outcome, Stop>
    ensures headline { IfOk result (λ done. IfSome done.report (IsRun (asked_of (texts words.now)) (S.left source.old)
        (K.files store.old, K.asked store.old, K.faults store.old) (K.files store.new, K.asked store.new, K.faults store.new)
        (O.written out.old, O.faults out.old) (O.written out.new, O.faults out.new) done.status)) }
    ensures no_report { IfOk result (λ done. done.report ≡ None → EndsWithoutReport (asked_of (texts words.now)) (S.left source.old)
        (K.files store.old, K.asked store.old, K.faults store.old) (K.files store.new, K.asked store.new, K.faults store.new)
        (O.written out.old, O.faults out.old) (O.written out.new, O.faults out.new) done.status) }
    ensures after_run { IfOk result (λ done. IsAfterRun done.status) }
    ensures good { OnOk result (HaveGood (asked_of (texts words.now)) (S.left source.old)) }
    ensures whole { OnOk result (IsReadWhole (asked_of (texts words.now)) (S.left source.old) (S.left source.new)) }
    ensures read_well { OnOk result (S.faults source.new ≡ S.faults source.old) }
    ensures nothing_put { IfOk result (λ done. done.report ≡ None
        → ((n q : ℕ) → AskForGenerated (job_of (texts words.now)) n q → ⊥) → store.new ≡ store.old) }
    ensures memory { IfOk result (λ done. done.status ≡ exit_memory → out.new ≡ out.old) }
    ensures unread { (n q : ℕ) → AskForGenerated (job_of (texts words.now)) n q → source.new ≡ source.old }

    ensures none_put { OnErr result (store.new ≡ store.old) }
    ensures none_written { OnErr result (out.new ≡ out.old) }
    ensures stopped { IfErr result (RunStops S.left S.faults (asked_of (texts words.now)) source.old source.new) }
{
    let job = asked(alloc, words)?;
    match job {
        Job::Sim { file, settings } => {
            simulated(alloc, file.as_str(), &settings, source, store, out)
        }
        Job::Gen { n, q, settings } => Ok(generate(alloc, n, q, &settings, store, out)),
        Job::Dump { .. } => {
            let status = dumped(alloc, source, out)?;
            Ok(Outcome::without_report(status))
        }
        // (its words were found at fault)
        Job::Run { .. } => Err(unknown()),
    }
}

/// Does the job that the words name, and always returns. For `sim` it reads the program that the source holds; for `gen` it
/// makes the generated program and puts its text as `gen.gp`. It runs the program in the order that the options' numbers
/// choose, and puts each goroutine profile that was opened as `goroutine.K.pb`, K being its epoch, then the CPU profile as
/// `cpu.pb`, the block profile as `block.pb` and the mutex profile as `mutex.pb`. Then it writes the summary. For `dump` it
/// reads the profile that the source holds, of at most 64 mebibytes, and writes the text of what it means. Words that begin
/// with `run` are at fault at that word. Where the words, the file or the source are at fault, it writes the line that tells
/// why.
pub fn plain_top<S: Source, K: Store, O: Sink>(
    alloc: Global,
    words: &[String],
    source: &mut S,
    store: &mut K,
    out: &mut O,
) -> Outcome
    // The headline: where there is a report, it is that of the run of the program that the words ask for, under their
    // options, in the order that these choose by numbers. The journal is a legal history of it, and complete; the goroutine
    // profiles are those of all goroutines live at their opening; the CPU records cover the samples. The files put are that
    // run's, each profile is read again from its bytes, and the summary is written; the status tells how the run ended, or why
    // they don't all stand.
    ensures headline { IfSome result.report (IsRun (asked_of (texts words.now)) (S.left source.old)
        (K.files store.old, K.asked store.old, K.faults store.old) (K.files store.new, K.asked store.new, K.faults store.new)
        (O.written out.old, O.faults out.old) (O.written out.new, O.faults out.new) result.status) }

    // No run on threads is asked for, whatever the words are.
    ensures no_threads { (file : List ℕ) (settings : Settings) → asked_of (texts words.now) ≡ Names (Run file settings) → ⊥ }

    // Where there is none, the words, the bytes or the source are at fault, or a profile was dumped, or the text of a
    // generated program couldn't be put, or memory ran out. Then nothing else was put.
    ensures no_report { result.report ≡ None → EndsWithoutReport (asked_of (texts words.now)) (S.left source.old)
        (K.files store.old, K.asked store.old, K.faults store.old) (K.files store.new, K.asked store.new, K.faults store.new)
        (O.written out.old, O.faults out.old) (O.written out.new, O.faults out.new) result.status }
    ensures nothing_put { result.report ≡ None → ((n q : ℕ) → AskForGenerated (job_of (texts words.now)) n q → ⊥) → store.new ≡ store.old }
    ensures refusal { IsRefusal result.status → result.report ≡ None }
    ensures refused_unput { IsRefusal result.status → store.new ≡ store.old }

    // Status 1: exactly where the words give no job. Then nothing was read.
    ensures usage { result.status ≡ exit_usage → GiveNoJob (asked_of (texts words.now)) }
    ensures job { result.status ≢ exit_usage → result.status ≢ exit_memory → HaveJob (asked_of (texts words.now)) }
    ensures unread { result.status ≡ exit_usage → source.new ≡ source.old }

    // Status 2: exactly where the bytes aren't what the job reads, a program or a profile, or are too many; on every other status
    // but 1, 3 and 9 they are that. What the job reads was read to its end, or past the limit; for `gen` nothing is.
    ensures refused { result.status ≡ exit_refused → IsRefused (asked_of (texts words.now)) (S.left source.old) }
    ensures good { result.status ≢ exit_usage → result.status ≢ exit_refused → result.status ≢ exit_read_fault
        → result.status ≢ exit_memory → HaveGood (asked_of (texts words.now)) (S.left source.old) }
    ensures whole { result.status ≢ exit_usage → result.status ≢ exit_read_fault → result.status ≢ exit_memory
        → IsReadWhole (asked_of (texts words.now)) (S.left source.old) (S.left source.new) }
    ensures reported_whole { IfSome result.report (λ _. IsReadWhole (asked_of (texts words.now)) (S.left source.old) (S.left source.new)) }
    ensures generated_unread { (n q : ℕ) → AskForGenerated (job_of (texts words.now)) n q → source.new ≡ source.old }

    // Status 3: only where the source's count rose. On every other status but 9 it didn't.
    ensures read_fault { result.status ≡ exit_read_fault → Rose (S.faults source.old) (S.faults source.new) }
    ensures read_well { result.status ≢ exit_read_fault → result.status ≢ exit_memory
        → S.faults source.new ≡ S.faults source.old }

    // Status 4: only where the store's count rose or the sink's. On every other status the store's didn't, and on every other
    // but 1, 2 and 3, where a line is written, neither did the sink's.
    ensures put_fault { result.status ≡ exit_put_fault
        → Rose (K.faults store.old) (K.faults store.new) ⊎ Rose (O.faults out.old) (O.faults out.new) }
    ensures put_well { result.status ≢ exit_put_fault → K.faults store.new ≡ K.faults store.old }
    ensures write_well { (IsRefusal result.status → ⊥) → result.status ≢ exit_put_fault → O.faults out.new ≡ O.faults out.old }

    // Status 5, 6, 7 and 8: exactly where a run ended so. Where there is a report, the status tells how its run ended, but for
    // 4 and 9; and on these four statuses there is one.
    ensures ended { IfSome result.report (λ report.
        result.status ≢ exit_put_fault → result.status ≢ exit_memory → result.status ≡ status_of report) }
    ensures reported { exit_fault ≤ result.status → result.status ≤ exit_full
        → IsSomeAnd result.report (λ report. result.status ≡ status_of report) }

    // What is written but for summaries and texts of profiles: on status 1, 2 and 3 the line of that refusal, whole, or a
    // prefix of it where the sink's count rose. On status 9 the sink is as before.
    ensures usage_line { result.status ≡ exit_usage
        → TellsUsage (asked_of (texts words.now)) (O.written out.old, O.faults out.old) (O.written out.new, O.faults out.new) }
    ensures refused_line { result.status ≡ exit_refused
        → TellsRefused (asked_of (texts words.now)) (S.left source.old) (O.written out.old, O.faults out.old)
        (O.written out.new, O.faults out.new) }
    ensures read_line { result.status ≡ exit_read_fault
        → IsWritten (fault_line Read) (O.written out.old, O.faults out.old) (O.written out.new, O.faults out.new) }
    ensures memory { result.status ≡ exit_memory → out.new ≡ out.old }

    // With right words, a right file and no fault the status tells how the run ended, unless memory runs out: 0 where it ended by
    // `main` and no profile was refused. How it ends is told by the program and the options.
    ensures complete { (file bytes : List ℕ) (settings : Settings) (program : Parts)
        → job_of (texts words.now) ≡ Names (Sim file settings)
        → S.left source.old ≡ Some bytes → length bytes ≤ file_bytes → program_of bytes ≡ Gives program
        → (Rose (S.faults source.old) (S.faults source.new) → ⊥)
        → (Rose (K.faults store.old) (K.faults store.new) → ⊥)
        → (Rose (O.faults out.old) (O.faults out.new) → ⊥)
        → (result.status ≡ status_of_run program settings) ⊎ (result.status ≡ exit_memory) }

    // So it is with right words for a generated program.
    ensures gen_complete { (n q : ℕ) (settings : Settings)
        → job_of (texts words.now) ≡ Names (Gen n q settings)
        → (Rose (K.faults store.old) (K.faults store.new) → ⊥)
        → (Rose (O.faults out.old) (O.faults out.new) → ⊥)
        → (result.status ≡ status_of_run (generated n q) settings) ⊎ (result.status ≡ exit_memory) }

    // With words for the text of a profile, a right profile and no fault the status is 0, unless memory runs out.
    ensures dump_complete { (file bytes : List ℕ) (profile : Profile)
        → job_of (texts words.now) ≡ Names (Dump file)
        → S.left source.old ≡ Some bytes → length bytes ≤ profile_bytes → reading.value_of bytes ≡ reading.Gives profile
        → (Rose (S.faults source.old) (S.faults source.new) → ⊥)
        → (Rose (O.faults out.old) (O.faults out.new) → ⊥)
        → (result.status ≡ exit_done) ⊎ (result.status ≡ exit_memory) }
{
    match perform(alloc, words, source, store, out) {
        Ok(outcome) => outcome,
        Err(Stop::Fault(what)) => refuse(alloc, &what, out),
        Err(Stop::Memory) => Outcome::without_report(MEMORY),
    }
}
