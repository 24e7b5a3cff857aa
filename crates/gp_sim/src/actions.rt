ghost use Rattle.std.specs.Prelude.{◌≡◌, ◌<◌, ◌≤◌, ◌+◌, ◌^◌, true, Some, None, is_some, IfSome, IfNone};
ghost use Rattle.gp_journal.specs.Settings.{AreInRange};
ghost use Rattle.gp_journal.specs.State.{code_of};
ghost use Rattle.gp_journal.specs.Due as definition;
ghost use Rattle.gp_journal.specs.Run.{state_of};
ghost use Rattle.gp_journal.specs.Shown.{IsGiven};
ghost use Rattle.gp_journal.specs.Bodies.{AreBodiesOf};
ghost use Rattle.gp_journal.specs.Standing.{head_of};
ghost use Rattle.gp_ring.specs.PlainRing.{has_more};
ghost use Rattle.gp_sim.specs.Choice.{goes_on_with, worker_action, answers, profiler_action, actions, acts_of, chosen};
ghost use Rattle.gp_sim.specs.kept.Acting.{idle_head, able, IsAble, IsAbleAt, number_acting, IsGivenTo};

use crate::bodies::Bodies;
use crate::numbers::{Act, Numbers, Turn};
use gp_isa::{Program, limits};
use gp_machine::{Entry, Machine, Run, Settings, SharedPoint};
use gp_ring::Ring;

/// What an actor does: its entry, and where that is an Op, its goroutine's next point.
#[derive(Clone, Copy)]
pub(crate) struct Action {
    pub(crate) entry: Entry,
    pub(crate) point: Option<SharedPoint>,
}

/// A turn, and where it makes an Op, its goroutine's next point.
#[derive(Clone, Copy)]
pub(crate) struct Step {
    pub(crate) turn: Turn,
    pub(crate) point: Option<SharedPoint>,
}

// Whom idle workers go on with, where they can act: all of them can, or none.
fn idle_head<R: Run>(machine: &Machine<R>, asked: bool) -> Option<u32>
    requires { asked ≡ definition.asked R.settings (state_of R.program R.settings machine.now) }
    ensures { result ≡ idle_head R.settings (state_of R.program R.settings machine.now) }
{
    if asked || machine.over() {
        return None;
    }
    machine.head()
}

// What idle worker w does with the head of the queue.
fn head_action<R: Run>(machine: &Machine<R>, w: u32, g: u32) -> Entry
    requires { head_of (state_of R.program R.settings machine.now).queue ≡ Some g }
    ensures entry { Some result ≡ goes_on_with (state_of R.program R.settings machine.now) w (Some g) }
    ensures no_point { IsGiven (code_of R.program) (state_of R.program R.settings machine.now) result None }
{
    // (it has no effect, but tells that the journal is legal)
    let _ = machine.journal();
    if machine.epoch(g) < machine.active() {
        return Entry::Record { actor: w, g };
    }
    Entry::Start { w, g }
}

// How many workers can act.
fn able<R: Run>(machine: &Machine<R>, settings: &Settings, head: Option<u32>) -> u32
    requires settings { settings.now ≡ R.settings }
    requires range { AreInRange R.settings }
    requires head { head ≡ idle_head R.settings (state_of R.program R.settings machine.now) }
    ensures { result ≡ able R.settings (state_of R.program R.settings machine.now) }
{
    let _ = machine.journal();
    match head {
        Some(_) => settings.workers,
        None => machine.busy(),
    }
}

// The worker at a place among those that can act.
fn able_at<R: Run>(machine: &Machine<R>, head: Option<u32>, place: u32) -> u32
    requires range { AreInRange R.settings }
    requires head { head ≡ idle_head R.settings (state_of R.program R.settings machine.now) }
    requires there { place < able R.settings (state_of R.program R.settings machine.now) }
    ensures { IsAbleAt R.settings (state_of R.program R.settings machine.now) place result }
{
    let _ = machine.journal();
    match head {
        Some(_) => place,
        None => machine.busy_at(place),
    }
}

// What worker w does, which can act.
fn worker_action<R: Run>(
    machine: &Machine<R>,
    bodies: &Bodies<R>,
    program: &Program,
    w: u32,
    head: Option<u32>,
) -> Action
    requires program { program.now ≡ R.program }
    requires range { AreInRange R.settings }
    requires bodies { AreBodiesOf (state_of R.program R.settings machine.now) bodies.now }
    requires head { head ≡ idle_head R.settings (state_of R.program R.settings machine.now) }
    requires able { IsAble R.settings (state_of R.program R.settings machine.now) w }
    ensures entry { worker_action (code_of R.program) R.settings (state_of R.program R.settings machine.now) w ≡ Some result.entry }
    ensures point { IsGiven (code_of R.program) (state_of R.program R.settings machine.now) result.entry result.point }
{
    let _ = machine.journal();
    match machine.runs(w) {
        Some(g) => {
            let peek = bodies.peek(program, g, limits::QUANTUM);
            Action {
                entry: machine.due(w, &peek),
                point: bodies.point(g, peek),
            }
        }
        None => match head {
            Some(g) => Action {
                entry: head_action(machine, w, g),
                point: None,
            },
            None => unreachable!(),
        },
    }
}

// What the profiler does with a profile that is asked for.
fn answer<R: Run>(machine: &Machine<R>, settings: &Settings) -> Entry
    requires settings { settings.now ≡ R.settings }
    requires range { AreInRange settings.now }
    ensures entry { result ≡ answers R.settings (state_of R.program R.settings machine.now) }
    ensures no_point { IsGiven (code_of R.program) (state_of R.program R.settings machine.now) result None }
{
    let _ = machine.journal();
    let room = settings.room;
    let n = machine.live();
    if n <= room {
        Entry::Open {
            epoch: machine.last_epoch() + 1,
            room,
        }
    } else {
        Entry::Refuse { room, n }
    }
}

// Whether the profiler can act.
fn profiler_acts<R: Run>(machine: &Machine<R>, asked: bool) -> bool
    requires { asked ≡ definition.asked R.settings (state_of R.program R.settings machine.now) }
    ensures { result ≡ is_some (profiler_action R.settings (state_of R.program R.settings machine.now)) }
{
    machine.active() > 0 || (asked && machine.running() == 0)
}

// What the profiler does, if it can act.
fn profiler_action<R: Run>(machine: &Machine<R>, settings: &Settings, asked: bool) -> Option<Entry>
    requires settings { settings.now ≡ R.settings }
    requires range { AreInRange settings.now }
    requires asked { asked ≡ definition.asked R.settings (state_of R.program R.settings machine.now) }
    ensures entry { result ≡ profiler_action R.settings (state_of R.program R.settings machine.now) }
    ensures no_point { IfSome result (λ entry. IsGiven (code_of R.program) (state_of R.program R.settings machine.now) entry None) }
{
    let active = machine.active();
    if active > 0 {
        return match machine.unrecorded() {
            Some(g) => Some(Entry::Record {
                actor: settings.workers,
                g,
            }),
            None => Some(Entry::Close { epoch: active }),
        };
    }
    if asked && machine.running() == 0 {
        return Some(answer(machine, settings));
    }
    None
}

// How many of the actors can act: those that make entries, and the reader, which doesn't go on alone.
fn number_acting(entries: u32, reads: bool) -> u32
    requires { entries + 1 < 2 ^ 32 }
    ensures { result ≡ number_acting entries reads }
{
    if entries == 0 {
        return 0;
    }
    entries + reads as u32
}

/// The next turn, where a worker or the profiler can act. Only the one that acts is looked at, and whether a profile is asked
/// for is asked once for all of them.
pub(crate) fn next_step<R: Run>(
    machine: &Machine<R>,
    bodies: &Bodies<R>,
    ring: &Ring,
    numbers: &Numbers<R>,
    program: &Program,
    settings: &Settings,
) -> Option<Step>
    requires program { program.now ≡ R.program }
    requires settings { settings.now ≡ R.settings }
    requires range { AreInRange R.settings }
    requires bodies { AreBodiesOf (state_of R.program R.settings machine.now) bodies.now }
    requires room { numbers.now + 1 < 2 ^ 64 }
    ensures none { IfNone result (
        chosen R.settings numbers.now
        (acts_of (actions (code_of R.program) R.settings (state_of R.program R.settings machine.now)) (has_more ring.now)) ≡ None) }
    ensures turn { IfSome result (λ step.
        chosen R.settings numbers.now
        (acts_of (actions (code_of R.program) R.settings (state_of R.program R.settings machine.now)) (has_more ring.now))
        ≡ Some step.turn) }
    ensures point { IfSome result (λ step.
        IsGivenTo (code_of R.program) (state_of R.program R.settings machine.now) step.turn.act step.point) }
    ensures more { IfSome result (λ step. numbers.now ≤ step.turn.taken) }
    ensures one { IfSome result (λ step. step.turn.taken ≤ numbers.now + 1) }
{
    let _ = machine.journal();
    let asked = machine.asked();
    let head = idle_head(machine, asked);
    let workers = able(machine, settings, head);
    let entries = workers + profiler_acts(machine, asked) as u32;
    let draw = numbers.choose(number_acting(entries, ring.has_more()))?;
    let taken = draw.taken;
    if draw.place < workers {
        let w = able_at(machine, head, draw.place);
        let Action { entry, point } = worker_action(machine, bodies, program, w, head);
        let act = Act::Make { entry };
        return Some(Step {
            turn: Turn { act, taken },
            point,
        });
    }
    if draw.place == entries {
        let act = Act::Read;
        return Some(Step {
            turn: Turn { act, taken },
            point: None,
        });
    }
    match profiler_action(machine, settings, asked) {
        Some(entry) => Some(Step {
            turn: Turn {
                act: Act::Make { entry },
                taken,
            },
            point: None,
        }),
        None => unreachable!(),
    }
}
