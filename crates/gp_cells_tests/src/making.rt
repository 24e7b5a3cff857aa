//! Bodies of goroutines that begin a program's first function, with shares of a book.
ghost use Rattle.std.specs.Prelude.{◌≡◌, ◌+◌, ◌<◌, ◌++◌, ◌∷◌, length, IfOk};
ghost use Rattle.gp_cells.specs.Goroutine.{IsBodyOf};

use gp_cases::Unanswered;
use gp_cells::Carried;
use gp_isa::Program;
use gp_stack::Body;
use gp_tally::{Book, Row};
use std::alloc::Global;

/// The body of the next goroutine of a book.
pub(crate) fn carried(
    alloc: Global,
    program: &Program,
    book: &mut Book,
    g: u32,
) -> Result<Carried, Unanswered>
    requires room { length book.old.rows < book.old.room }
    requires number { g ≡ length book.old.rows }
    ensures body { IfOk result (IsBodyOf program.now book.old.book g) }
    ensures rows { IfOk result (λ made. length book.new.rows ≡ g + 1) }
    ensures same { (book.new.book ≡ book.old.book) × (book.new.room ≡ book.old.room) }
{
    if program.parts().functions.is_empty() {
        return Err(Unanswered::Form);
    }
    let mut body = Body::vacant(alloc, program)?;
    body.born(program, 0, 0);
    if body.is_over(program) {
        return Err(Unanswered::Form);
    }
    let share = book.issue(Row {
        a: 0,
        b: 0,
        c: 0,
        d: u64::from(g) + 1,
    });
    Ok(Carried { body, share })
}
