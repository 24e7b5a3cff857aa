//! What the reader has to itself: its end of the ring of samples, and the records that it took from it. It takes no lock.
ghost use Rattle.std.specs.Prelude.{◌≡◌, ◌≢◌, ◌↔◌, [], map, IsTrue, IfOk};
ghost use Rattle.gp_cpu.specs.Records.{ring_record_of};
ghost use Rattle.gp_ring.specs.PlainRing.{End};
ghost use Rattle.gp_workers.specs.Actors.{IsInVain};
ghost use Rattle.gp_workers.specs.kept.Reading.{Collects, turn_of};

use crate::gate::Place;
use crate::turn::{Did, Turn};
use gp_cpu::Collector;
use gp_isa::Memory;
use gp_ring::{Reader, Taken};
use gp_samples::{Took, take};
use std::alloc::Global;
use std::marker::Model;

/// The end of the ring of samples that is read, and the records that were taken from it. They are exactly those that the reader
/// took, unless a turn met want of memory.
#[derive(Drop)]
pub(crate) struct Intake {
    reader: Reader,
    cpu: Collector,
    failed: bool,
}

impl Model for Intake {
    ghost use Rattle.gp_ring.specs.TwoEnds.{ReaderEnd};
    ghost use Rattle.gp_workers.specs.kept.Reading.{Collects};

    ghost Value = { ReaderEnd };

    ghost view = { λ x. x.reader };

    ghost invariant = { λ x. Collects x.reader x.cpu x.failed };
}

// What a turn comes to that read the ring.
fn came_to(took: Took) -> Turn
    ensures { result ≡ turn_of took }
{
    match took {
        Took::Records => Turn::Went,
        Took::Nothing => Turn::Idle,
        Took::End => Turn::Done,
    }
}

// What a turn comes to that read the ring and met want of memory. No more is to come where it found the end.
fn came_short(reader: &Reader) -> Turn
    ensures done { (result ≡ Turn.Done) ↔ (reader.now.hand ≡ End) }
    ensures went { result ≢ Turn.Idle }
{
    match reader.shown() {
        Taken::End => Turn::Done,
        _ => Turn::Memory,
    }
}

impl Intake {
    /// A reader that has taken nothing yet.
    pub fn new(alloc: Global, reader: Reader) -> Result<Intake, Memory>
        requires header { reader.ring.hdrsize ≡ 1 }
        requires none { reader.taken ≡ [] }
        ensures { IfOk result (λ intake. intake ≡ reader) }
    {
        Ok(Intake {
            reader,
            cpu: Collector::new(alloc)?,
            failed: false,
        })
    }

    /// Whether its last answer was the end.
    pub fn is_over(&self) -> bool
        ensures { IsTrue result ↔ (self.now.hand ≡ End) }
    {
        match self.reader.shown() {
            Taken::End => true,
            _ => false,
        }
    }

    /// A turn of the reader: it reads the ring once, unless it has found the end, or somebody met want of memory, which is told by
    /// `stop`.
    pub fn turn(&mut self, alloc: Global, stop: bool) -> Did
        ensures ring { self.new.ring ≡ self.old.ring }
        ensures done { (result.turn ≡ Turn.Done) ↔ (self.new.hand ≡ End) }
        ensures idle { result.turn ≡ Turn.Idle → IsInVain self.old self.new }
    {
        if self.is_over() {
            return Did::came_to(Turn::Done);
        }
        let Intake {
            reader,
            cpu,
            failed,
        } = self;
        if stop {
            *failed = true;
        }
        if *failed {
            return Did::came_to(Turn::Memory);
        }
        Intake::read_once(alloc, reader, cpu, failed)
    }

    // Reads the ring once. Want of memory is noted.
    fn read_once(alloc: Global, reader: &mut Reader, cpu: &mut Collector, failed: &mut bool) -> Did
        requires { Collects reader.old cpu.old failed.old }
        ensures collects { Collects reader.new cpu.new failed.new }
        ensures ring { reader.new.ring ≡ reader.old.ring }
        ensures done { (result.turn ≡ Turn.Done) ↔ (reader.new.hand ≡ End) }
        ensures idle { result.turn ≡ Turn.Idle → IsInVain reader.old reader.new }
    {
        match take(alloc, reader, cpu) {
            Ok(took) => {
                let turn = came_to(took);
                let records = cpu.records().len() as u64;
                Did::came_by(turn, Place::ReadOnce { records })
            }
            Err(_) => {
                *failed = true;
                let turn = came_short(reader);
                Did::came_to(turn)
            }
        }
    }

    /// The reader, and the records that it took. `Memory`: a turn met want of memory.
    pub fn into_parts(self) -> Result<(Reader, Collector), Memory>
        ensures reader { IfOk result (λ it. it.0 ≡ self) }
        ensures records { IfOk result (λ it. map ring_record_of it.1 ≡ it.0.taken) }
    {
        let Intake {
            reader,
            cpu,
            failed,
        } = self;
        if failed {
            return Err(Memory);
        }
        Ok((reader, cpu))
    }
}
