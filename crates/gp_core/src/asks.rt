//! What the conditions of events ask of the machine's state.
ghost use Rattle.std.specs.Prelude.{◌≡◌, ◌≤◌, ◌<◌, not, is_none};
ghost use Rattle.gp_journal.specs.Settings.{AreInRange};
ghost use Rattle.gp_journal.specs.State.{goroutine, worker, is_live, is_running, is_idle};
ghost use Rattle.gp_journal.specs.May.{is_recorded};
ghost use Rattle.gp_journal.specs.Run.{state_of};
ghost use Rattle.gp_core.specs.Enabled.{is_needed, may_start};
ghost use Rattle.gp_core.specs.kept.Tests.{is_number, may_record, may_close};

use gp_machine::{Machine, Run, Status};

// Whether g is live.
pub(crate) fn lives<R: Run>(machine: &Machine<R>, g: u32) -> bool
    ensures { result ≡ is_live (goroutine (state_of R.program R.settings machine.now) g) }
{
    !matches!(machine.goroutine(g).status, Status::Dead)
}

// Whether g doesn't run.
pub(crate) fn stands<R: Run>(machine: &Machine<R>, g: u32) -> bool
    ensures { result ≡ not (is_running (goroutine (state_of R.program R.settings machine.now) g).status) }
{
    !matches!(machine.goroutine(g).status, Status::Running { .. })
}

// Whether g has to be recorded before it starts.
pub(crate) fn is_needed<R: Run>(machine: &Machine<R>, g: u32) -> bool
    ensures { result ≡ is_needed (state_of R.program R.settings machine.now) g }
{
    machine.goroutine(g).epoch < machine.active()
}

// Whether g has the active profile's epoch, where there is one.
fn is_recorded<R: Run>(machine: &Machine<R>, g: u32) -> bool
    ensures { result ≡ is_recorded (state_of R.program R.settings machine.now) g }
{
    let active = machine.active();
    active == 0 || machine.goroutine(g).epoch == active
}

// Whether worker w runs nothing.
fn is_idle<R: Run>(machine: &Machine<R>, w: u32) -> bool
    requires range { AreInRange R.settings }
    requires worker { w < R.settings.workers }
    ensures { result ≡ is_idle (state_of R.program R.settings machine.now) w }
{
    // (it tells that the journal is legal)
    let _ = machine.journal();
    machine.runs(w).is_none()
}

// Whether an actor runs g.
pub(crate) fn runs<R: Run>(machine: &Machine<R>, workers: u32, a: u32, g: u32) -> bool
    requires range { AreInRange R.settings }
    requires workers { workers ≡ R.settings.workers }
    ensures { result ≡ is_number g (worker (state_of R.program R.settings machine.now) a).runs }
{
    // (it tells that the journal is legal)
    let _ = machine.journal();
    if a < workers {
        match machine.runs(a) {
            Some(h) => h == g,
            None => false,
        }
    } else {
        false
    }
}

// Whether an actor may record g.
pub(crate) fn may_record<R: Run>(machine: &Machine<R>, workers: u32, a: u32, g: u32) -> bool
    requires range { AreInRange R.settings }
    requires workers { workers ≡ R.settings.workers }
    requires actor { a ≤ workers }
    ensures { result ≡ may_record R.settings (state_of R.program R.settings machine.now) a g }
{
    machine.active() > 0
        && lives(machine, g)
        && is_needed(machine, g)
        && (a == workers || is_idle(machine, a))
}

// Whether worker w may start g.
pub(crate) fn may_start<R: Run>(machine: &Machine<R>, w: u32, g: u32) -> bool
    requires range { AreInRange R.settings }
    requires worker { w < R.settings.workers }
    ensures { result ≡ may_start R.settings (state_of R.program R.settings machine.now) w g }
{
    is_idle(machine, w)
        && matches!(machine.goroutine(g).status, Status::Runnable)
        && !machine.asked()
        && !machine.over()
        && is_recorded(machine, g)
}

// Whether the active profile may be closed.
pub(crate) fn may_close<R: Run>(machine: &Machine<R>) -> bool
    ensures { result ≡ may_close (state_of R.program R.settings machine.now) }
{
    machine.active() > 0 && machine.unrecorded().is_none()
}
