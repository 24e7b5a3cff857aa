//! Profiles of samples, as bytes in hexadecimal text.
use crate::profiles::{frame, tell_bytes};
use gp_build::{Header, Kind, Site, Sites, StackSample, profile};
use gp_cases::{Page, Unanswered, halves, integer, integers, program_of, word, words};
use gp_isa::{Program, Sequence};
use std::alloc::Global;

/// What a profile is made of besides the program.
#[derive(Drop)]
struct Given {
    header: Header,
    samples: Vec<StackSample>,
}

// The sites of words: `lost`, or a frame.
fn sites(alloc: Global, row: &str) -> Result<Sites, Unanswered> {
    let mut sites = Sequence::new(alloc);
    for word in words(alloc, row)? {
        let site = match word {
            "lost" => Site::lost(),
            _ => Site::new(frame(word)?),
        };
        sites.push(site)?;
    }
    Ok(sites)
}

impl Given {
    // A sample: its values, and its sites, the leaf first.
    fn add_sample(&mut self, alloc: Global, row: &str) -> Result<(), Unanswered> {
        let (values, stack) = halves(row, '/')?;
        let stack = sites(alloc, stack)?;
        self.samples.push(StackSample {
            stack,
            set: 0,
            values: integers(alloc, values)?,
        })?;
        Ok(())
    }

    fn add(&mut self, alloc: Global, row: &str) -> Result<(), Unanswered> {
        let (field, rest) = word(row);
        let (name, unit) = word(rest);
        match field {
            "type" => self.header.types.push(Kind::new(alloc, name, unit)?)?,
            "period-type" => self.header.period_type = Some(Kind::new(alloc, name, unit)?),
            "period" => self.header.period = integer(name)?,
            "duration" => self.header.duration = integer(name)?,
            _ => self.add_sample(alloc, rest)?,
        }
        Ok(())
    }
}

fn tell(
    alloc: Global,
    page: &mut Page,
    program: &Program,
    given: &Given,
) -> Result<(), Unanswered> {
    let samples = given.samples.as_slice();
    let profile = profile(alloc, program, "a.gp", &given.header, samples)?;
    tell_bytes(alloc, page, &profile)
}

/// The profile of the rows' header and samples, of a program in the file `a.gp`.
pub fn samples(
    alloc: Global,
    page: &mut Page,
    text: &str,
    rows: &[&str],
) -> Result<(), Unanswered> {
    let mut given = Given {
        header: Header {
            types: Sequence::new(alloc),
            period_type: None,
            period: 0,
            duration: 0,
        },
        samples: Vec::new(alloc),
    };
    for row in rows {
        given.add(alloc, row)?;
    }
    let program = program_of(alloc, text)?;
    tell(alloc, page, &program, &given)
}
