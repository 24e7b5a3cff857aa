//! The two ends of a ring for two threads, on one thread, with what a caller has to know: how many offers were made, and how many
//! words they have.
ghost use Rattle.std.specs.Prelude.{◌≡◌};

use gp_cases::{Page, Unanswered};
use gp_ring::{Closed, Reader, Taken, Writer, Wrote};
use std::alloc::Global;
use std::marker::Model;

/// A ring that is driven by calls of both ends, until it is closed.
#[derive(Drop)]
pub struct EndsDriver {
    writer: Writer,
    reader: Reader,
    offers: usize,
    words: usize,
}

impl Model for EndsDriver {
    ghost use Rattle.std.specs.Prelude.{ℕ};
    ghost use Rattle.gp_ring_tests.specs.Driving.{DrivesEnds};

    ghost Value = { ℕ };

    ghost view = { λ x. x.offers };

    ghost invariant = { λ x. DrivesEnds x.writer x.reader x.offers x.words };
}

/// The same, once the writer was closed.
#[derive(Drop)]
pub struct ClosedDriver {
    closed: Closed,
    reader: Reader,
    pub ghost one_ring: { closed.ring ≡ reader.ring },
}

// An act, if a look was made before. Tells what was found.
fn act(reader: &mut Reader, page: &mut Page) -> Result<(), Unanswered>
    ensures { reader.new.ring ≡ reader.old.ring }
{
    if !reader.has_looked() {
        return Err(Unanswered::Form);
    }
    let found = reader.act();
    page.debug("\n", &found)?;
    Ok(())
}

// A look and an act. Tells what was found.
fn read(reader: &mut Reader, page: &mut Page) -> Result<(), Unanswered>
    ensures { reader.new.ring ≡ reader.old.ring }
{
    let found = reader.read();
    page.debug("\n", &found)?;
    Ok(())
}

impl EndsDriver {
    /// A new ring, if its sizes may be given.
    pub fn new(
        alloc: Global,
        hdrsize: u64,
        words: u64,
        tags: u64,
    ) -> Result<EndsDriver, Unanswered> {
        if hdrsize == 0 || hdrsize > 64 || words >= 1 << 28 || tags == 0 || tags >= 1 << 28 {
            return Err(Unanswered::Form);
        }
        let (writer, reader) = gp_ring::new(alloc, hdrsize as u32, words as u32, tags as u32)?;
        Ok(EndsDriver {
            writer,
            reader,
            offers: 0,
            words: 0,
        })
    }

    /// A write of a header and a stack, which stand behind each other, if it may be made. The first header word isn't 0.
    pub fn write(&mut self, tag: u64, time: u64, rest: &[u64]) -> Option<Wrote> {
        let hdrsize = self.writer.hdrsize() as usize;
        if rest.len() < hdrsize || rest.len() > 1 << 20 {
            return None;
        }
        let (header, stack) = rest.split_at(hdrsize);
        if *header.first()? == 0 {
            return None;
        }
        let need = 2 + hdrsize + stack.len();
        let most = need.max(3 + hdrsize);
        if 2 * need > self.writer.len() as usize
            || self.offers >= 1 << 20
            || self.words >= 1 << 29
        {
            return None;
        }
        self.offers += 1;
        self.words += most;
        Some(self.writer.write(tag, time, header, stack))
    }

    /// A look. The reader is held there until an act.
    pub fn look(&mut self) {
        self.reader.look();
    }

    /// An act, if a look was made before.
    pub fn act(&mut self, page: &mut Page) -> Result<(), Unanswered> {
        act(&mut self.reader, page)
    }

    /// A look and an act.
    pub fn read(&mut self, page: &mut Page) -> Result<(), Unanswered> {
        read(&mut self.reader, page)
    }

    /// Tells `r` and `w`, each as the end that stores it has it.
    pub fn counts(&self, page: &mut Page) -> Result<(), Unanswered> {
        page.number("\n", self.reader.read_word())?;
        page.number(" ", self.writer.written_word())?;
        Ok(())
    }

    /// The close.
    pub fn close(self) -> ClosedDriver {
        let EndsDriver { writer, reader, .. } = self;
        ClosedDriver {
            closed: writer.close(),
            reader,
        }
    }
}

impl ClosedDriver {
    /// A look.
    pub fn look(&mut self) {
        self.reader.look();
    }

    /// An act, if a look was made before.
    pub fn act(&mut self, page: &mut Page) -> Result<(), Unanswered> {
        act(&mut self.reader, page)
    }

    /// A look and an act.
    pub fn read(&mut self, page: &mut Page) -> Result<(), Unanswered> {
        read(&mut self.reader, page)
    }

    /// The reader takes in the writer, if its last answer was the end. What it answers then is still the end.
    pub fn settle(self) -> Result<(), Unanswered> {
        let ClosedDriver { closed, mut reader } = self;
        match reader.shown() {
            Taken::End => {}
            _ => return Err(Unanswered::Form),
        }
        reader.settle(closed);
        match reader.shown() {
            Taken::End => Ok(()),
            _ => Err(Unanswered::Form),
        }
    }
}
