//! What a goroutine's body shows behind so many points of its trace.
ghost use Rattle.std.specs.Prelude.{◌<◌, length, IfOk};
ghost use Rattle.gp_stack.specs.Body.{StandsIn};

use gp_cases::{Page, Unanswered, chain, number_8, number_32, number_64, program_of, word};
use gp_isa::{Frame, Program};
use gp_stack::{Body, Then};
use gp_text::read;
use std::alloc::{AllocError, Global};

// Passes the next `n` points, of any kind, and says whether there were so many.
fn walk(body: &mut Body, program: &Program, n: u64) -> bool
    requires { StandsIn program.now body.old }
    ensures { StandsIn program.now body.new }
{
    let mut left = n;
    while left > 0 {
        let ahead = body.peek(program, left);
        body.advance(program, ahead.local);
        left -= ahead.local;
        if left > 0 {
            match ahead.then {
                Then::Shared(_) => body.pass(program),
                Then::Local => return false,
                Then::Over => return false,
            }
            left -= 1;
        }
    }
    true
}

// A goroutine that is born to run a function with a label set, by a body that walked before.
fn born(alloc: Global, program: &Program, start: u32, set: u8) -> Result<Body, Unanswered>
    requires { start < length program.now.functions }
    ensures { IfOk result (StandsIn program.now) }
{
    let mut body = Body::vacant(alloc, program)?;
    body.born(program, start, 7);
    walk(&mut body, program, 1);
    body.born(program, start, set);
    Ok(body)
}

fn write_frames(page: &mut Page, frames: &[Frame]) -> Result<(), AllocError> {
    for frame in frames {
        page.number(" ", u64::from(frame.function))?;
        page.number(":", u64::from(frame.line))?;
    }
    Ok(())
}

// Walks a body on to point `n`. It then tells the labels, the local points ahead up to a limit, what follows them, and the
// frames, the leaf first, each as its function and line.
fn look(
    alloc: Global,
    page: &mut Page,
    body: &mut Body,
    program: &Program,
    n: u64,
    limit: u64,
) -> Result<(), Unanswered>
    requires { StandsIn program.now body.old }
    ensures { StandsIn program.now body.new }
{
    let more = n.saturating_sub(body.count());
    if !walk(body, program, more) || body.count() != n {
        page.line("another count")?;
        return Ok(());
    }
    let peek = body.peek(program, limit);
    let record = body.record(alloc, program, 5)?;
    page.number("\n", u64::from(record.set))?;
    page.number(" ", peek.local)?;
    page.debug(" ", &peek.then)?;
    write_frames(page, record.stack.as_slice())?;
    Ok(())
}

// Two bodies go along the rows, `N LIMIT`: one from row to row, and a new one at a stretch for each row. Behind the last row
// the trace is ended.
fn walk_rows(
    alloc: Global,
    page: &mut Page,
    program: &Program,
    start: u32,
    set: u8,
    rows: &[&str],
) -> Result<(), Unanswered>
    requires { start < length program.now.functions }
{
    let mut walker = born(alloc, program, start, set)?;
    let mut stretches = Page::new(alloc);
    for row in rows {
        let (n, limit) = word(row);
        let n = number_64(n)?;
        let limit = number_64(limit)?;
        look(alloc, page, &mut walker, program, n, limit)?;
        let mut body = born(alloc, program, start, set)?;
        look(alloc, &mut stretches, &mut body, program, n, limit)?;
    }
    if page.as_str() != stretches.as_str() {
        page.line("at a stretch")?;
        page.text(stretches.as_str())?;
    }
    if !walk(&mut walker, program, 1) {
        page.number("\nended in ", u64::from(walker.start()))?;
    }
    Ok(())
}

/// What a body shows that is born in a program of lines of words: `FUNCTION SET PROGRAM`.
pub fn walks(alloc: Global, page: &mut Page, head: &str, rows: &[&str]) -> Result<(), Unanswered> {
    let (start, head) = word(head);
    let (set, text) = word(head);
    let program = program_of(alloc, text)?;
    let start = number_32(start)?;
    if start as usize >= program.parts().functions.len() {
        return Err(Unanswered::Form);
    }
    walk_rows(alloc, page, &program, start, number_8(set)?, rows)
}

// A word is told as its upper and its lower half.
fn write_words(page: &mut Page, words: &[u64]) -> Result<(), AllocError> {
    for word in words {
        page.number(" ", word / 4_294_967_296)?;
        page.number(":", word % 4_294_967_296)?;
    }
    Ok(())
}

// The first frames of the next stack, and a room of so many words for them, in which 0:7 stood before.
fn cut(
    alloc: Global,
    page: &mut Page,
    body: &Body,
    program: &Program,
    max: u32,
) -> Result<(), Unanswered>
    requires { StandsIn program.now body.now }
{
    if body.is_over(program) {
        return Err(Unanswered::Form);
    }
    let stack = body.stack(alloc, program, max)?;
    page.line("stack")?;
    write_frames(page, stack.as_slice())?;
    let mut room = vec![in alloc; 7; max as usize]?;
    body.stack_words(program, room.as_mut_slice());
    page.line("words")?;
    write_words(page, room.as_slice())?;
    Ok(())
}

fn cut_rows(
    alloc: Global,
    page: &mut Page,
    program: &Program,
    rows: &[&str],
) -> Result<(), Unanswered> {
    if program.parts().functions.is_empty() {
        return Err(Unanswered::Form);
    }
    let body = born(alloc, program, 0, 0)?;
    for max in rows {
        cut(alloc, page, &body, program, number_32(max)?)?;
    }
    Ok(())
}

fn file_program(alloc: Global, file: &[u8]) -> Result<Program, Unanswered> {
    if file.len() > 65536 {
        return Err(Unanswered::Form);
    }
    read(alloc, file).ok().ok_or(Unanswered::Form)
}

/// The stack of a chain's first point, cut behind as many frames as each row says.
pub fn cuts(alloc: Global, page: &mut Page, count: &str, rows: &[&str]) -> Result<(), Unanswered> {
    let file = chain(alloc, number_32(count)?)?;
    let program = file_program(alloc, file.as_str().as_bytes())?;
    cut_rows(alloc, page, &program, rows)
}
