ghost use Rattle.std.specs.Prelude.{◌≡◌, ◌≤◌, ℕ, List, None, Option, IfOk, IfSome};
ghost use Rattle.gp_journal.specs.Settings.{AreInRange};
ghost use Rattle.gp_text.specs.Text.{text_of};
ghost use Rattle.gp_gen.specs.Generated.{generated};
ghost use Rattle.gp_words.specs.declared.jobs.Job.{Job};
ghost use Rattle.gp_words.specs.Read.{Read as Reading};
ghost use Rattle.gp_top.specs.Exit.{exit_memory};
ghost use Rattle.gp_top.specs.Task.{generated_task};
ghost use Rattle.gp_top.specs.Top.{AskForGenerated, EndsWithoutReport};
ghost use Rattle.gp_top.specs.kept.Steps.{CameTo, IsAfterRun};

use crate::outcome::Outcome;
use crate::running::run_whole;
use crate::save::put_text;
use crate::status::{MEMORY, PUT_FAULT};
use gp_gen::program;
use gp_io::{Sink, Store};
use gp_isa::{Memory, Program, Text};
use gp_machine::Settings;
use gp_text::print;
use std::alloc::Global;

/// The name under which the text of a generated program is put.
const GENERATED: &str = "gen.gp";

// A generated program, and its text.
#[derive(Drop)]
struct Made {
    program: Program,
    text: Text,
}

fn make(alloc: Global, n: u64, q: u32) -> Result<Made, Memory>
    requires least { 1 ≤ q }
    requires most { q ≤ 63 }
    ensures program { IfOk result (λ made. made.program ≡ generated n q) }
    ensures text { IfOk result (λ made. made.text ≡ text_of (generated n q)) }
{
    let program = program(alloc, n, q)?;
    let text = print(alloc, &program)?;
    Ok(Made { program, text })
}

/// Puts the text of the generated program of two numbers, and then runs it. Where the text can't be put the program isn't
/// run.
pub(crate) fn generate<K: Store, O: Sink>(
    alloc: Global,
    n: u64,
    q: u32,
    settings: &Settings,
    store: &mut K,
    out: &mut O,
) -> Outcome
    requires least { 1 ≤ q }
    requires most { q ≤ 63 }
    requires range { AreInRange settings.now }
    ensures run { IfSome result.report (CameTo (generated_task n q settings.now)
        (K.files store.old, K.asked store.old, K.faults store.old) (K.files store.new, K.asked store.new, K.faults store.new)
        (O.written out.old, O.faults out.old) (O.written out.new, O.faults out.new) result.status) }
    ensures no_report { result.report ≡ None → (asked : Reading Job) (held : Option (List ℕ)) → AskForGenerated asked n q
        → EndsWithoutReport asked held
        (K.files store.old, K.asked store.old, K.faults store.old) (K.files store.new, K.asked store.new, K.faults store.new)
        (O.written out.old, O.faults out.old) (O.written out.new, O.faults out.new) result.status }
    ensures memory { result.status ≡ exit_memory → out.new ≡ out.old }
    ensures after_run { IsAfterRun result.status }
{
    let Ok(made) = make(alloc, n, q) else {
        return Outcome::without_report(MEMORY);
    };
    match put_text(GENERATED, made.text.as_bytes(), store) {
        Ok(()) => run_whole(alloc, &made.program, GENERATED, settings, store, out),
        Err(_) => Outcome::without_report(PUT_FAULT),
    }
}
