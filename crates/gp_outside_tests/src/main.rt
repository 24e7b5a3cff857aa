//! Cases of the source, the store and the sink in memory. They stand in `data/outside.txt`, each with what has to come of it, which
//! was worked out by hand. What the real source, store and output do is printed behind them.
#![tactic(auto)]

mod memory;
mod real;

use gp_cases::{Page, Teller, Unanswered, walk};
use std::alloc::Global;

/// Answers cases of the outside in memory.
struct OfMemory;

impl Teller for OfMemory {
    fn tell(alloc: Global, page: &mut Page, rows: &[&str]) -> Result<(), Unanswered> {
        let (kind, rows) = rows.split_first().ok_or(Unanswered::Form)?;
        match *kind {
            "reads" => memory::reads(alloc, page, rows),
            "puts" => memory::puts(alloc, page, rows),
            "writes" => memory::writes(alloc, page, rows),
            _ => memory::writes_whole(alloc, page, rows),
        }
    }
}

fn main(rt: HostRuntime) -> Result<(), Unanswered> {
    walk::<OfMemory>(&rt, "outside.txt")?;
    real::outside(&rt)
}
