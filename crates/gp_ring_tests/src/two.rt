//! A ring between two threads: one offers numbered samples, and lets another thread run behind a lost one; the other reads until the
//! end. What it took is counted: each number came, or was counted lost once, in order.
ghost use Rattle.std.specs.Prelude.{◌≡◌, ◌<◌, ◌≤◌, ◌^◌, [], IfOk};
ghost use Rattle.gp_ring.specs.Records.{Covers};
ghost use Rattle.gp_ring_tests.specs.Driving.{numbered, IsSmall};

use crate::figures::{Figures, nanoseconds_since};
use crate::passed::Passed;
use crate::pauses::pause;
use gp_cases::Unanswered;
use gp_ring::{Closed, Reader, Taken, Writer, Wrote};
use std::alloc::Global;
use std::rt::Clock;
use std::sync::Wait;
use std::thread;
use std::thread::Threads;
use std::time::Instant;

/// The header of every sample.
const HEADER: [u64; 1] = [1];

/// What samples leave that went through a ring.
#[derive(Drop)]
pub struct Crossing {
    pub reader: Reader,
    pub figures: Figures,
}

// Offers so many samples, and closes. It also gives the nanoseconds that the writes took.
fn offer_all<R: Clock>(rt: &R, mut writer: Writer, samples: u64, seed: u64) -> (Closed, u64)
    requires small { IsSmall writer.ring samples }
    requires fresh { writer.offers ≡ [] }
    ensures ring { result.0.ring ≡ writer.ring }
    ensures offers { result.0.offers ≡ numbered samples }
{
    let begun = Instant::now(rt).ok();
    let mut pauses = seed;
    for number in 0..samples {
        if let Wrote::Lost { .. } = writer.write(number, number, &HEADER, &[7]) {
            thread::yield_now();
        }
        pauses = pause(pauses);
    }
    let writes = nanoseconds_since(rt, begun);
    (writer.close(), writes)
}

// Reads to the end, and gives what came in order.
fn read_all<R: Wait>(rt: &R, mut reader: Reader, seed: u64) -> (Reader, Passed)
    ensures ring { result.0.ring ≡ reader.ring }
{
    let mut passed = Passed::none();
    let mut pauses = seed;
    for _ in rt.forever() {
        reader.look();
        pauses = pause(pauses);
        let Some(then) = passed.with_taken(reader.act()) else {
            break;
        };
        if then.next == passed.next {
            thread::yield_now();
        }
        passed = then;
    }
    (reader, passed)
}

/// So many samples go through a ring of so many words and tags between two threads, which pause at random, by this seed, unless it
/// is 0. Afterwards the records that were taken cover them.
pub fn go_through<R: Threads + Wait + Clock + Sync>(
    rt: &R,
    alloc: Global,
    words: u32,
    tags: u32,
    samples: u64,
    seed: u64,
) -> Result<Crossing, Unanswered>
    requires words { (8 ≤ words) × (words < 2 ^ 28) }
    requires tags { (1 ≤ tags) × (tags < 2 ^ 28) }
    requires few { samples < 2 ^ 28 }
    ensures { IfOk result (λ crossing. Covers crossing.reader.taken (numbered samples)) }
{
    let (writer, reader) = gp_ring::new(alloc, 1, words, tags)?;
    let begun = Instant::now(rt).ok();
    let ((closed, writes), (mut reader, passed)) = thread::join(
        rt,
        move || -> (Closed, u64)
            requires { IsSmall writer.ring samples × (writer.offers ≡ []) }
            ensures { (result.0.ring ≡ writer.ring) × (result.0.offers ≡ numbered samples) }
        { offer_all(rt, writer, samples, seed) },
        move || -> (Reader, Passed)
            ensures { result.0.ring ≡ reader.ring }
        { read_all(rt, reader, seed.wrapping_mul(3)) },
    );
    let whole = nanoseconds_since(rt, begun);
    match reader.shown() {
        Taken::End => {}
        _ => return Err(Unanswered::Form),
    }
    reader.settle(closed);
    Ok(Crossing {
        reader,
        figures: Figures {
            passed,
            writes,
            whole,
        },
    })
}
