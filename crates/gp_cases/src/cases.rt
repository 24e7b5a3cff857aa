use crate::case::Case;
use crate::copies::expanded;
use crate::error::Unanswered;
use crate::page::Page;
use std::alloc::Global;
use std::rt::Files;
use std::{fs, io};

/// What answers cases.
pub trait Teller {
    /// Tells what comes of a case, given its rows.
    fn tell(alloc: Global, page: &mut Page, rows: &[&str]) -> Result<(), Unanswered>;
}

/// How many cases there were, and how many lines had to come.
#[derive(Clone, Copy)]
struct Tally {
    cases: u64,
    lines: u64,
}

// Prints the first line that has to come and doesn't, with what comes in its place.
fn print_first(rt: &impl Print, expected: &str, answer: &str) -> io::Result<()> {
    for (expects, comes) in expected.split('\n').zip(answer.split('\n')) {
        if expects != comes {
            rt.println("has to come")?;
            rt.println(expects)?;
            rt.println("comes")?;
            return rt.println(comes);
        }
    }
    rt.println("comes in other lines")?;
    rt.println(answer)
}

// Answers a case, and prints what is wrong with the answer.
fn walk_case<T: Teller>(
    rt: &(impl Print + AllocGlobal),
    case: &Case,
    tally: &mut Tally,
) -> Result<(), Unanswered> {
    let Some(head) = case.rows.first() else {
        return Ok(());
    };
    let mut page = Page::new(rt.alloc());
    if T::tell(rt.alloc(), &mut page, case.rows.as_slice()).is_err() {
        page.line("nothing more")?;
    }
    let expected = case.expected.as_str();
    if page.as_str() != expected {
        rt.println(head.get(..100).unwrap_or(*head))?;
        print_first(rt, expected, page.as_str())?;
    }
    let lines = expected.split('\n').skip(1).count() as u64;
    tally.cases = tally.cases.saturating_add(1);
    tally.lines = tally.lines.saturating_add(lines);
    Ok(())
}

fn walk_text<T: Teller>(rt: &(impl Print + AllocGlobal), text: &str) -> Result<Tally, Unanswered> {
    let mut tally = Tally { cases: 0, lines: 0 };
    for block in text.split("\n\n") {
        let case = Case::read(rt.alloc(), block)?;
        walk_case::<T>(rt, &case, &mut tally)?;
    }
    Ok(tally)
}

/// Goes over the cases of a file.
pub fn walk<T: Teller>(
    rt: &(impl Files + Print + AllocGlobal),
    path: &str,
) -> Result<(), Unanswered> {
    let file = fs::read_to_string(rt, path)?;
    let text = expanded(rt.alloc(), file.as_str())?;
    let Tally { cases, lines } = walk_text::<T>(rt, text.as_str())?;
    println!(rt; "{path}: cases {cases}, lines {lines}")?;
    Ok(())
}
