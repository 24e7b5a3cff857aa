//! Files of functions that call one another, of which the first is `main`. One that calls nobody does `work 1`.
use crate::error::Unanswered;
use crate::page::Page;
use crate::reading::{number_32, word};
use std::alloc::{AllocError, Global};

fn write_name(page: &mut Page, f: u32) -> Result<(), AllocError> {
    if f == 0 {
        page.text("main")
    } else {
        page.number("f", u64::from(f))
    }
}

// Writes function f, which calls all functions of a range, and so often.
fn write_function(
    page: &mut Page,
    f: u32,
    from: u32,
    to: u32,
    times: u32,
) -> Result<(), AllocError> {
    page.text("func ")?;
    write_name(page, f)?;
    page.text(" {\n")?;
    for _ in 0..times {
        for h in from..to {
            page.text("call ")?;
            write_name(page, h)?;
            page.text("\n")?;
        }
    }
    page.text(if from < to { "}\n" } else { "work 1\n}\n" })
}

/// A file of so many functions. Each calls all `later` ones, or all `earlier` ones, or the `next` one: then the first
/// `doubled` functions call it twice, and the others once.
fn write_graph(page: &mut Page, shape: &str, count: u32, doubled: u32) -> Result<(), AllocError> {
    for f in 0..count {
        let next = f.saturating_add(1);
        let last = next.saturating_add(1).min(count);
        let times = if f < doubled { 2 } else { 1 };
        match shape {
            "later" => write_function(page, f, next, count, 1)?,
            "earlier" => write_function(page, f, 0, f, 1)?,
            _ => write_function(page, f, next, last, times)?,
        }
    }
    Ok(())
}

/// Functions each of which calls the next, and the last of which works. The statement of function f is on line
/// 3 f + 2.
pub fn chain(alloc: Global, count: u32) -> Result<Page, AllocError> {
    let mut page = Page::new(alloc);
    write_graph(&mut page, "next", count, 0)?;
    Ok(page)
}

/// The file that words tell: `SHAPE COUNT DOUBLED`.
pub fn graph(alloc: Global, words: &str) -> Result<Page, Unanswered> {
    let (shape, numbers) = word(words);
    let (count, doubled) = word(numbers);
    let mut page = Page::new(alloc);
    write_graph(&mut page, shape, number_32(count)?, number_32(doubled)?)?;
    Ok(page)
}
