//! Which parts lie in their limits, and what `check` says of those that do.
use gp_cases::{Page, Unanswered, parts_of};
use gp_isa::{Parts, Program, check};
use std::alloc::{AllocError, Global};

/// Whether the parts of each row lie in their limits.
pub fn limits(alloc: Global, page: &mut Page, rows: &[&str]) -> Result<(), Unanswered> {
    for row in rows {
        let within = parts_of(alloc, row)?.in_limits();
        page.line(if within { "true" } else { "false" })?;
    }
    Ok(())
}

/// The number of `main`, the points of its trace, and the depth of a program.
pub fn numbers(page: &mut Page, program: &Program) -> Result<(), AllocError> {
    let main = program.main();
    let points = if (main as usize) < program.parts().functions.len() {
        program.length(main)
    } else {
        0
    };
    page.line("main")?;
    page.number(" ", u64::from(main))?;
    page.number(", ", points)?;
    page.number(" points, ", u64::from(program.depth()))?;
    page.text(" deep")
}

fn outcome(alloc: Global, page: &mut Page, parts: Parts) -> Result<(), Unanswered> {
    if !parts.in_limits() {
        page.line("out of limits")?;
        return Ok(());
    }
    match check(alloc, parts) {
        Ok(program) => numbers(page, &program)?,
        Err(bad) => page.debug("\n", &bad)?,
    }
    Ok(())
}

/// What comes of the parts of each row.
pub fn checks(alloc: Global, page: &mut Page, rows: &[&str]) -> Result<(), Unanswered> {
    for row in rows {
        outcome(alloc, page, parts_of(alloc, row)?)?;
    }
    Ok(())
}
