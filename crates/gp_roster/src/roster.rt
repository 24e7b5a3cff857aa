//! The calls on a book of goroutines: as a run begins, after an entry, and after a birth.
ghost use Rattle.std.specs.Prelude.{◌≡◌, ◌+◌, ◌<◌, ◌≤◌, true, not, length, [], ◌∷◌, ◌++◌, slice_set, if◌then◌else◌, IfOk};
ghost use Rattle.gp_stack.specs.Body.{progress_of, StandsIn};
ghost use Rattle.gp_journal.specs.Bodies.{standing};
ghost use Rattle.gp_journal.specs.Run.{state_of};
ghost use Rattle.gp_journal.specs.State.{goroutine, births, is_dead, is_live};
ghost use Rattle.gp_cells.specs.Goroutine.{IsBodyOf};
ghost use Rattle.gp_roster.specs.Rows as rows;
ghost use Rattle.gp_roster.specs.Rows.{rows_of};

use gp_cells::Carried;
use gp_isa::{Memory, Program};
use gp_machine::{Machine, Run, Status};
use gp_stack::Body;
use gp_tally::{Book, Row, Share};
use std::alloc::Global;

// What the fourth number of the row of g says, which has such a status.
fn mark(g: u32, status: Status) -> u64
    ensures { result ≡ (if not (is_dead status) then g + 1 else 0) }
{
    match status {
        Status::Dead => 0,
        _ => u64::from(g) + 1,
    }
}

/// The row of goroutine `g`, as it stands.
pub fn row_of<R: Run>(machine: &Machine<R>, g: u32) -> Row
    ensures { result ≡ rows.row_of g (goroutine (state_of R.program R.settings machine.now) g) }
{
    let it = machine.goroutine(g);
    Row {
        a: u64::from(it.start),
        b: u64::from(it.set),
        c: it.count,
        d: mark(g, it.status),
    }
}

/// The book of a run as it begins, with room for a row of each cell, and the body of goroutine 0, which runs `main`.
pub fn begun<R: Run>(
    alloc: Global,
    program: &Program,
    cells: u32,
) -> Result<(Book, Carried), Memory>
    requires program { program.now ≡ R.program }
    requires some { 1 ≤ cells }
    ensures rows { IfOk result (λ made. made.0.rows ≡ rows_of (state_of R.program R.settings [])) }
    ensures room { IfOk result (λ made. made.0.room ≡ cells) }
    ensures main { IfOk result (λ made. IsBodyOf R.program made.0.book 0 made.1) }
{
    // (it has no effect, but tells that the program was checked)
    let _ = program.parts();
    let mut book = Book::new(alloc, cells)?;
    let mut body = Body::vacant(alloc, program)?;
    let main = program.main();
    body.born(program, main, 0);
    let share = book.issue(Row {
        a: u64::from(main),
        b: 0,
        c: 0,
        d: 1,
    });
    Ok((book, Carried { body, share }))
}

/// A share's row, and the book's of its number, become that of the goroutine of this number as it stands now.
pub fn follow<R: Run>(book: &mut Book, machine: &Machine<R>, share: &mut Share)
    requires book { share.old.book ≡ book.old.book }
    ensures rows { book.new.rows ≡ slice_set book.old.rows share.old.number
        (rows.row_of share.old.number (goroutine (state_of R.program R.settings machine.now) share.old.number)) }
    ensures share { share.new ≡ record share.old {
      row = rows.row_of share.old.number (goroutine (state_of R.program R.settings machine.now) share.old.number);
    } }
    ensures same { (book.new.book ≡ book.old.book) × (book.new.room ≡ book.old.room) }
{
    let row = row_of(machine, share.number());
    book.set(share, row);
}

/// The row of the goroutine that was born last is put behind the others. Its body, which stands where it stands, gets the share.
pub fn bear<R: Run>(book: &mut Book, program: &Program, machine: &Machine<R>, body: Body) -> Carried
    requires program { program.now ≡ R.program }
    requires room { length book.old.rows < book.old.room }
    requires last { births (state_of R.program R.settings machine.now) ≡ length book.old.rows + 1 }
    requires live { is_live (goroutine (state_of R.program R.settings machine.now) (length book.old.rows)) ≡ true }
    requires place { progress_of body ≡ standing (goroutine (state_of R.program R.settings machine.now) (length book.old.rows)) }
    requires stands { StandsIn R.program body }
    ensures rows { let h = length book.old.rows in
        book.new.rows ≡ book.old.rows ++ rows.row_of h (goroutine (state_of R.program R.settings machine.now) h) ∷ [] }
    ensures body { IsBodyOf R.program book.old.book (length book.old.rows) result }
    ensures same { (book.new.book ≡ book.old.book) × (book.new.room ≡ book.old.room) }
{
    // (neither has an effect, but they tell that the program was checked and the journal is legal)
    let _ = program.parts();
    let _ = machine.journal();
    let row = row_of(machine, machine.births() - 1);
    let share = book.issue(row);
    Carried { body, share }
}
