//! A row of calls on two cells by two passes, on one thread, with what each comes to.
ghost use Rattle.std.specs.Prelude.{◌≡◌, ◌<◌};
ghost use Rattle.gp_cells.specs.Goroutine.{IsBodyOf};

use crate::making::carried;
use gp_cases::Unanswered;
use gp_cells::{Bear, Carried, Cells, Claim, Pass, Roster, Take, home};
use gp_isa::Program;
use gp_journal::Run;
use gp_tally::Book;
use std::alloc::Global;
use std::io::Print;
use std::marker::Brand;

// Claims a cell for actor 2 in epoch 1, and tells what it comes to. A body that it wins goes back.
fn tell_claim<K: Roster, R: Run, T: Print>(
    rt: &T,
    cells: &Cells<K, R>,
    pass: &mut Pass,
    g: u32,
) -> Result<(), Unanswered>
    requires cell { g < cells.now.count }
    requires pass { pass.old.cells ≡ cells.now.table }
    ensures cells { pass.new.cells ≡ pass.old.cells }
    ensures held { pass.new.held ≡ pass.old.held }
{
    match cells.claim(pass, g, 2, 1) {
        Claim::Held(held) => {
            cells.satisfy(pass, held);
            println!(rt; "claim: held")?;
        }
        Claim::Satisfied(word) => println!(rt; "claim: satisfied {word}")?,
        Claim::Busy(word) => println!(rt; "claim: busy {word}")?,
        Claim::Dead(word) => println!(rt; "claim: dead {word}")?,
    }
    Ok(())
}

// What a body was brought into a cell to.
fn tell_bear<T: Print>(rt: &T, bear: &Bear) -> Result<(), Unanswered> {
    match bear {
        Bear::Home => println!(rt; "bear: home")?,
        Bear::Taken { word, .. } => println!(rt; "bear: taken {word}")?,
    }
    Ok(())
}

// Actor 2 claims cell 0 in epoch 1, and the other pass comes too late; then it is satisfied, and claimed no more.
fn claim_row<K: Roster, R: Run, T: Print>(
    rt: &T,
    cells: &Cells<K, R>,
    one: &mut Pass,
    two: &mut Pass,
) -> Result<(), Unanswered>
    requires count { cells.now.count ≡ 2 }
    requires one { one.old.cells ≡ cells.now.table }
    requires two { two.old.cells ≡ cells.now.table }
    ensures one { one.new.cells ≡ one.old.cells }
    ensures two { two.new.cells ≡ two.old.cells }
    ensures held { two.new.held ≡ two.old.held }
{
    let Claim::Held(held) = cells.claim(one, 0, 2, 1) else {
        return Err(Unanswered::Form);
    };
    let (cell, epoch, actor) = (held.cell(), held.epoch(), held.actor());
    println!(rt; "claim: held, cell {cell}, epoch {epoch}, actor {actor}")?;
    tell_claim(rt, cells, two, 0)?;
    cells.satisfy(one, held);
    tell_claim(rt, cells, two, 0)?;
    tell_claim(rt, cells, two, 1)
}

// Actor 0 takes cell 0 by a word that isn't there any more, and by the one that it was told; with the body that it then has it
// can't fill that cell again.
fn take_row<K: Roster, R: Run, T: Print>(
    rt: &T,
    cells: &Cells<K, R>,
    pass: &mut Pass,
) -> Result<(), Unanswered>
    requires count { cells.now.count ≡ 2 }
    requires pass { pass.old.cells ≡ cells.now.table }
    ensures pass { pass.new.cells ≡ pass.old.cells }
{
    let before = home(0);
    let Take::Changed(word) = cells.take(pass, 0, 0, before) else {
        return Err(Unanswered::Form);
    };
    println!(rt; "take from {before}: changed {word}")?;
    let after = home(1);
    let Take::Held(held) = cells.take(pass, 0, 0, after) else {
        return Err(Unanswered::Form);
    };
    println!(rt; "take from {after}: held")?;
    tell_bear(rt, &cells.bear(pass, 0, 0, held.body, 1))
}

// All of it: cell 0 gets its body with epoch 0, and after the calls above cell 1 gets its.
fn row<K: Roster, R: Run, T: Print>(
    rt: &T,
    alloc: Global,
    main: Carried,
    other: Carried,
) -> Result<(), Unanswered>
    requires main { IsBodyOf R.program K.roster 0 main }
    requires other { IsBodyOf R.program K.roster 1 other }
{
    let (cells, mut one) = Cells::<K, R>::new(alloc, 2)?;
    let mut two = one.split(&cells);
    tell_bear(rt, &cells.bear(&mut one, 0, 0, main, 0))?;
    claim_row(rt, &cells, &mut one, &mut two)?;
    take_row(rt, &cells, &mut one)?;
    tell_bear(rt, &cells.bear(&mut one, 1, 0, other, 1))?;
    one.join(&cells, two);
    Ok(())
}

/// The row, for a program whose first function has a point.
pub(crate) fn row_on<T: Print>(rt: &T, alloc: Global, program: &Program) -> Result<(), Unanswered> {
    let mut book = Book::new(alloc, 2)?;
    let main = carried(alloc, program, &mut book, 0)?;
    let other = carried(alloc, program, &mut book, 1)?;
    named_row::<Brand, Brand, T>(rt, alloc, program, &book, main, other)
}

// The same, for a book and a program that are named.
fn named_row<K: Roster, R: Run, T: Print>(
    rt: &T,
    alloc: Global,
    program: &Program,
    book: &Book,
    main: Carried,
    other: Carried,
) -> Result<(), Unanswered>
    requires program { program.now ≡ R.program }
    requires book { book.now.book ≡ K.roster }
    requires main { IsBodyOf program.now book.now.book 0 main }
    requires other { IsBodyOf program.now book.now.book 1 other }
{
    let _program = program;
    let _book = book;
    row::<K, R, T>(rt, alloc, main, other)
}
