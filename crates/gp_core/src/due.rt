//! The entry that is due on a worker is made, and the body of whom it runs moves along.
ghost use Rattle.std.specs.Prelude.{◌≡◌, ◌++◌, ◌∷◌, [], Some};
ghost use Rattle.gp_stack.specs.Body.{progress_of, StandsIn};
ghost use Rattle.gp_journal.specs.declared.entry.Entry.TheVariants as entry;
ghost use Rattle.gp_journal.specs.Answer.{applied};
ghost use Rattle.gp_journal.specs.Bodies.{standing, further};
ghost use Rattle.gp_journal.specs.Due.{due};
ghost use Rattle.gp_journal.specs.May.{May};
ghost use Rattle.gp_journal.specs.Run.{state_of};
ghost use Rattle.gp_journal.specs.Settings.{AreInRange};
ghost use Rattle.gp_journal.specs.Shown.{IsPeekAt, IsPointOf};
ghost use Rattle.gp_journal.specs.State.{code_of, goroutine, worker};
ghost use Rattle.gp_core.specs.Stepped.{points_of, points_by};

use gp_isa::{Program, limits};
use gp_machine::{AtPoint, Entry, Machine, Run, SharedPoint};
use gp_stack::{Body, Peek, Then};

// The next point of g, whose body stands at a shared one, as a look ahead at it found it.
fn shared_point<R: Run>(
    machine: &Machine<R>,
    body: &Body,
    w: u32,
    g: u32,
    peek: Peek,
) -> SharedPoint
    requires range { AreInRange R.settings }
    requires stands { StandsIn R.program body.now }
    requires place { progress_of body.now ≡ standing (goroutine (state_of R.program R.settings machine.now) g) }
    requires may { May (code_of R.program) R.settings (state_of R.program R.settings machine.now) (entry.Op w g) }
    requires peek { IsPeekAt (code_of R.program) (state_of R.program R.settings machine.now) g peek }
    ensures { IsPointOf (code_of R.program) (state_of R.program R.settings machine.now) g result }
{
    // (it tells that the journal is legal)
    let _ = machine.journal();
    match peek.then {
        Then::Shared(operation) => SharedPoint {
            operation,
            labels: body.labels(),
        },
        Then::Local => unreachable!(),
        Then::Over => unreachable!(),
    }
}

// g comes to its next point on w, and its body passes that where g does.
fn operate<R: Run>(
    machine: &mut Machine<R>,
    program: &Program,
    w: u32,
    g: u32,
    body: &mut Body,
    point: SharedPoint,
)
    requires program { program.now ≡ R.program }
    requires range { AreInRange R.settings }
    requires stands { StandsIn R.program body.old }
    requires place { progress_of body.old ≡ standing (goroutine (state_of R.program R.settings machine.old) g) }
    requires may { May (code_of R.program) R.settings (state_of R.program R.settings machine.old) (entry.Op w g) }
    requires point { IsPointOf (code_of R.program) (state_of R.program R.settings machine.old) g point }
    ensures journal { machine.new ≡ machine.old ++ entry.Op w g ∷ [] }
    ensures stands { StandsIn R.program body.new }
    ensures progress { progress_of body.new ≡ further
        (points_by (applied (code_of R.program) R.settings (state_of R.program R.settings machine.old) (entry.Op w g)))
        (progress_of body.old) }
{
    // (it tells that the journal is legal)
    let _ = machine.journal();
    match machine.make(Entry::Op { w, g }, Some(point)) {
        AtPoint::Passes => body.pass(program),
        AtPoint::Bears => body.pass(program),
        AtPoint::Stays => {}
    }
}

// g passes n local points on w, and its body with it.
fn run<R: Run>(machine: &mut Machine<R>, program: &Program, w: u32, g: u32, body: &mut Body, n: u64)
    requires program { program.now ≡ R.program }
    requires range { AreInRange R.settings }
    requires stands { StandsIn R.program body.old }
    requires place { progress_of body.old ≡ standing (goroutine (state_of R.program R.settings machine.old) g) }
    requires may { May (code_of R.program) R.settings (state_of R.program R.settings machine.old) (entry.Run w g n) }
    ensures journal { machine.new ≡ machine.old ++ entry.Run w g n ∷ [] }
    ensures stands { StandsIn R.program body.new }
    ensures progress { progress_of body.new ≡ further n (progress_of body.old) }
{
    // (it tells that the journal is legal)
    let _ = machine.journal();
    machine.make(Entry::Run { w, g, n }, None);
    body.advance(program, n);
}

// Makes the entry that is due on w, which runs g. The body of g passes as many points as g does.
pub(crate) fn make_due<R: Run>(
    machine: &mut Machine<R>,
    program: &Program,
    w: u32,
    g: u32,
    body: &mut Body,
)
    requires program { program.now ≡ R.program }
    requires range { AreInRange R.settings }
    requires runs { (worker (state_of R.program R.settings machine.old) w).runs ≡ Some g }
    requires stands { StandsIn R.program body.old }
    requires place { progress_of body.old ≡ standing (goroutine (state_of R.program R.settings machine.old) g) }
    ensures journal { machine.new ≡ machine.old
        ++ due (code_of R.program) R.settings (state_of R.program R.settings machine.old) w g ∷ [] }
    ensures stands { StandsIn R.program body.new }
    ensures progress { let state = state_of R.program R.settings machine.old in
        progress_of body.new ≡ further
        (points_of (code_of R.program) R.settings state (due (code_of R.program) R.settings state w g)) (progress_of body.old) }
{
    let peek = body.peek(program, limits::QUANTUM);
    let made = machine.due(w, &peek);
    match made {
        Entry::Run { n, .. } => run(machine, program, w, g, body, n),
        Entry::Op { .. } => {
            let point = shared_point(machine, body, w, g, peek);
            operate(machine, program, w, g, body, point)
        }
        Entry::Tick { .. } => {
            machine.make(Entry::Tick { w, g }, None);
        }
        Entry::Park { .. } => {
            machine.make(Entry::Park { w, g }, None);
        }
        Entry::Start { .. } => unreachable!(),
        Entry::Open { .. } => unreachable!(),
        Entry::Refuse { .. } => unreachable!(),
        Entry::Record { .. } => unreachable!(),
        Entry::Close { .. } => unreachable!(),
    }
}
