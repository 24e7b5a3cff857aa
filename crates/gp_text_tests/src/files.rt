//! What comes of program files.
use crate::programs::numbers;
use gp_cases::{Page, Unanswered, bytes, graph, lines, word};
use gp_isa::{Function, LabelSet, Parts, Program, Stmt, What, limits};
use gp_text::{TextError, print, read};
use std::alloc::{AllocError, Global};

// The most bytes of a file.
const MOST: usize = 1_048_576;

// What a statement does, as a word and a number.
fn doing(what: &What) -> (&str, u32) {
    match what {
        What::Work { n } => ("work", *n),
        What::Call { f } => ("call", *f),
        What::Loop { n, .. } => ("loop", *n),
        What::Send { c } => ("send", *c),
        What::Recv { c } => ("recv", *c),
        What::Lock { m } => ("lock", *m),
        What::Unlock { m } => ("unlock", *m),
        What::Spawn { f } => ("spawn", *f),
        What::Labels { s } => ("labels", u32::from(*s)),
    }
}

// Statements, each with its line; those of a loop in braces, with the line of the second one.
#[cycle(list)]
fn list_body(page: &mut Page, body: &[Stmt], deep: u8) -> Result<(), AllocError> {
    for statement in body {
        let (verb, number) = doing(&statement.what);
        page.number(" ", u64::from(statement.line))?;
        page.text(" ")?;
        page.text(verb)?;
        page.number(" ", u64::from(number))?;
        if deep > 0 {
            list_inside(page, &statement.what, deep - 1)?;
        }
    }
    Ok(())
}

// What stands in a statement, if it is a loop.
#[cycle(list)]
fn list_inside(page: &mut Page, what: &What, deep: u8) -> Result<(), AllocError> {
    if let What::Loop { body, end, .. } = what {
        page.text(" {")?;
        list_body(page, body.get().as_slice(), deep)?;
        page.number(" } ", u64::from(*end))?;
    }
    Ok(())
}

fn list_function(page: &mut Page, function: &Function) -> Result<(), AllocError> {
    page.line("func ")?;
    page.text(function.name.as_str())?;
    page.number(" ", u64::from(function.line))?;
    page.number("-", u64::from(function.end))?;
    page.text(":")?;
    list_body(page, function.body.as_slice(), limits::LOOPS)
}

fn list_set(page: &mut Page, set: &LabelSet) -> Result<(), AllocError> {
    page.line("labels ")?;
    page.text(set.name.as_str())?;
    page.number(" ", u64::from(set.line))?;
    for pair in set.pairs.as_slice() {
        page.text(" ")?;
        page.text(pair.key.as_str())?;
        page.text("=")?;
        page.text(pair.value.as_str())?;
    }
    Ok(())
}

// What parts declare, each with its line.
fn list(page: &mut Page, parts: &Parts) -> Result<(), AllocError> {
    for channel in parts.channels.as_slice() {
        page.line("chan ")?;
        page.text(channel.name.as_str())?;
        page.number(" ", u64::from(channel.line))?;
        page.number(" ", u64::from(channel.capacity))?;
    }
    for mutex in parts.mutexes.as_slice() {
        page.line("mutex ")?;
        page.text(mutex.name.as_str())?;
        page.number(" ", u64::from(mutex.line))?;
    }
    for set in parts.labels.as_slice() {
        list_set(page, set)?;
    }
    for function in parts.functions.as_slice() {
        list_function(page, function)?;
    }
    Ok(())
}

// The functions of parts, each with its lines and how many statements it has, and how many channels there are.
fn sizes(page: &mut Page, parts: &Parts) -> Result<(), AllocError> {
    for function in parts.functions.as_slice() {
        page.line("func")?;
        page.number(" ", u64::from(function.line))?;
        page.number("-", u64::from(function.end))?;
        page.number(": ", function.body.len() as u64)?;
    }
    page.line("chan")?;
    page.number(" ", parts.channels.len() as u64)
}

// The program of a file, if it is one.
fn file_program(alloc: Global, file: &[u8]) -> Result<Program, Unanswered> {
    if file.len() > MOST {
        return Err(Unanswered::Form);
    }
    read(alloc, file).ok().ok_or(Unanswered::Form)
}

// The text of a program, and whether it is read again as the same program.
fn printed(alloc: Global, page: &mut Page, program: &Program) -> Result<(), Unanswered> {
    let text = print(alloc, program)?;
    for line in text.as_str().lines() {
        page.line(line)?;
    }
    let again = file_program(alloc, text.as_bytes())?;
    let mut before = Page::new(alloc);
    list(&mut before, program.parts())?;
    let mut after = Page::new(alloc);
    list(&mut after, again.parts())?;
    page.line(if before.as_str() == after.as_str() {
        "the same again"
    } else {
        "another program"
    })?;
    Ok(())
}

fn tell(alloc: Global, page: &mut Page, kind: &str, program: &Program) -> Result<(), Unanswered> {
    match kind {
        "read" => numbers(page, program)?,
        "list" => list(page, program.parts())?,
        "print" => printed(alloc, page, program)?,
        _ => sizes(page, program.parts())?,
    }
    Ok(())
}

// What comes of a file: the line and the number of the cause of a refusal, or what is asked for of the program.
fn tell_file(alloc: Global, page: &mut Page, kind: &str, file: &[u8]) -> Result<(), Unanswered> {
    if file.len() > MOST {
        return Err(Unanswered::Form);
    }
    match read(alloc, file) {
        Ok(program) => tell(alloc, page, kind, &program)?,
        Err(TextError::Refused { line, cause }) => {
            page.number("\nline ", u64::from(line))?;
            page.number(", cause ", u64::from(cause.number()))?;
        }
        Err(TextError::Memory) => return Err(Unanswered::Memory),
    }
    Ok(())
}

fn tell_row(alloc: Global, page: &mut Page, kind: &str, row: &str) -> Result<(), Unanswered> {
    let (form, rest) = word(row);
    match form {
        "text" => {
            let text = lines(alloc, rest)?;
            tell_file(alloc, page, kind, text.as_bytes())
        }
        "marks" => {
            let text = rest.replace(alloc, ';', "\n")?;
            let text = text.replace(alloc, '%', "#")?;
            let text = text.replace(alloc, '|', "\t")?;
            let text = text.replace(alloc, '$', "\r")?;
            tell_file(alloc, page, kind, text.as_bytes())
        }
        "hex" => {
            let bytes = bytes(alloc, rest)?;
            tell_file(alloc, page, kind, bytes.as_slice())
        }
        _ => {
            let file = graph(alloc, rest)?;
            tell_file(alloc, page, kind, file.as_str().as_bytes())
        }
    }
}

/// What comes of the file of each row.
pub fn readings(
    alloc: Global,
    page: &mut Page,
    kind: &str,
    rows: &[&str],
) -> Result<(), Unanswered> {
    for row in rows {
        tell_row(alloc, page, kind, row)?;
    }
    Ok(())
}
