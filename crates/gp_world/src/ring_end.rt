//! The world's end of the ring of samples: the writer, until the profiler finishes; then the writer that was closed, until the reader
//! has taken that in.
ghost use Rattle.std.specs.Prelude.{◌≡◌, ◌*◌, ◌<◌, ◌^◌};
ghost use Rattle.gp_stack.specs.Body.{progress_of, StandsIn};
ghost use Rattle.gp_samples.specs.RunRing.{sample_at};
ghost use Rattle.gp_world.specs.declared.ring_end.RingEnd.TheVariants as variant;
ghost use Rattle.gp_world.specs.RingEnds.{Tells, with_sample, shut_of};
ghost use Rattle.gp_world.specs.kept.Ending.{MayOffer, IsWriter, IsClosed};

use gp_isa::Program;
use gp_ring::{Closed, Writer, Wrote};
use gp_samples::write_sample;
use gp_stack::Body;

/// An end of the ring of samples.
#[derive(Drop)]
pub enum RingEnd {
    /// Samples may be offered at it.
    Writing(Writer),
    /// The profiler has finished: no sample comes any more.
    Shut(Closed),
    /// The reader has taken it in.
    Settled,
}

// Offers the sample of a body at a clock, in instructions, and tells what became of it.
pub(crate) fn offer_at(end: &mut RingEnd, program: &Program, body: &Body, clock: u64) -> Wrote
    requires stands { StandsIn program.now body.now }
    requires time { 1000 * clock < 2 ^ 64 }
    requires writable { MayOffer end.old (sample_at program.now clock (progress_of body.now)) }
    ensures answer { Tells end.old end.new (sample_at program.now clock (progress_of body.now)) result }
    ensures after { end.new ≡ with_sample end.old end.new (sample_at program.now clock (progress_of body.now)) }
{
    match end {
        RingEnd::Writing(writer) => write_sample(writer, program, body, clock),
        RingEnd::Shut(_) => unreachable!(),
        RingEnd::Settled => unreachable!(),
    }
}

// Marks the end of the ring.
pub(crate) fn shut(end: RingEnd) -> RingEnd
    requires { IsWriter end }
    ensures { result ≡ shut_of end }
{
    match end {
        RingEnd::Writing(writer) => RingEnd::Shut(writer.close()),
        RingEnd::Shut(_) => unreachable!(),
        RingEnd::Settled => unreachable!(),
    }
}

// The writer that was closed.
pub(crate) fn closed_in(end: RingEnd) -> Closed
    requires { IsClosed end }
    ensures { end ≡ variant.Shut result }
{
    match end {
        RingEnd::Shut(closed) => closed,
        RingEnd::Writing(_) => unreachable!(),
        RingEnd::Settled => unreachable!(),
    }
}
