ghost use Rattle.std.specs.Prelude.{◌≡◌, ◌*◌, ◌≤◌, ◌<◌, ◌^◌, ◌∷◌, ◌++◌, [], length, map, take};
ghost use Rattle.gp_stack.specs.Body.{progress_of, stack_at, labels_at, StandsIn};
ghost use Rattle.gp_stack.specs.Word.{word_of};
ghost use Rattle.gp_journal.specs.Answer.{instruction_time};
ghost use Rattle.gp_ring.specs.PlainRing.{written, wrote};
ghost use Rattle.gp_ring.specs.Follows.{IsOfferable};
ghost use Rattle.gp_ring.specs.Offered.{GoesOn};
ghost use Rattle.gp_ring.specs.TwoEnds as ends;
ghost use Rattle.gp_ring.specs.TwoEnds.{MayWrite, with_found};
ghost use Rattle.gp_samples.specs.RunRing.{sample_at};

use gp_isa::{Program, limits};
use gp_ring::{Ring, Writer, Wrote};
use gp_stack::Body;

// How many frames of a stack a sample has at most.
const FRAMES: usize = limits::CPU_FRAMES as usize;

// A clock, in instructions, as nanoseconds.
fn time_at(clock: u64) -> u64
    requires { 1000 * clock < 2 ^ 64 }
    ensures { result ≡ instruction_time * clock }
{
    limits::INSTRUCTION_TIME * clock
}

// The number of a body's label set.
fn tag_of(program: &Program, body: &Body) -> u64
    requires { StandsIn program.now body.now }
    ensures { result ≡ labels_at program.now (progress_of body.now) }
{
    body.labels() as u64
}

// Writes the words of a body's stack, the leaf first, as many as there is room for, and says how many. At the end of its
// trace there are none.
fn stack_words(program: &Program, body: &Body, to: &mut [u64]) -> usize
    requires { StandsIn program.now body.now }
    ensures few { result ≤ length to.new }
    ensures words { take result to.new ≡ map word_of (take (length to.old) (stack_at program.now (progress_of body.now))) }
{
    if body.is_over(program) {
        return 0;
    }
    body.stack_words(program, to)
}

/// Offers the sample of a body to the ring, at a clock, in instructions: the time in nanoseconds, header 1, the words of its
/// stack, the leaf first, at most 64, and the number of its label set as tag. It tells what became of it, and takes no memory.
pub fn offer_sample(ring: &mut Ring, program: &Program, body: &Body, clock: u64) -> Wrote
    requires stands { StandsIn program.now body.now }
    requires time { 1000 * clock < 2 ^ 64 }
    requires offerable { IsOfferable ring.old (sample_at program.now clock (progress_of body.now)) }
    ensures answer { result ≡ wrote ring.old (sample_at program.now clock (progress_of body.now)) }
    ensures after { ring.new ≡ written ring.old (sample_at program.now clock (progress_of body.now)) }
    ensures follows { GoesOn ring.old ring.new (sample_at program.now clock (progress_of body.now) ∷ []) [] }
{
    let mut words = [0; FRAMES];
    let frames = stack_words(program, body, &mut words);
    ring.write(
        tag_of(program, body),
        time_at(clock),
        &[1],
        &words[..frames],
    )
}

/// Offers the sample of a body to the ring that two threads share, as `offer_sample` does to the other one. What became of it and
/// what that left are told by the words that the write loaded and found.
pub fn write_sample(writer: &mut Writer, program: &Program, body: &Body, clock: u64) -> Wrote
    requires stands { StandsIn program.now body.now }
    requires time { 1000 * clock < 2 ^ 64 }
    requires writable { MayWrite writer.old (sample_at program.now clock (progress_of body.now)) }
    ensures answer { result ≡ ends.wrote (with_found writer.old writer.new) (sample_at program.now clock (progress_of body.now)) }
    ensures after { writer.new ≡ ends.written (with_found writer.old writer.new) (sample_at program.now clock (progress_of body.now)) }
    ensures offers { writer.new.offers ≡ writer.old.offers ++ sample_at program.now clock (progress_of body.now) ∷ [] }
    ensures ring { writer.new.ring ≡ writer.old.ring }
{
    let mut words = [0; FRAMES];
    let frames = stack_words(program, body, &mut words);
    writer.write(
        tag_of(program, body),
        time_at(clock),
        &[1],
        &words[..frames],
    )
}
