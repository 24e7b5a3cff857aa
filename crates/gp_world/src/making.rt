//! A world as it begins.
ghost use Rattle.std.specs.Prelude.{◌≡◌, ◌+◌, ◌<◌, ◌≤◌, ◌^◌, [], ◌∷◌, false, length, map, replicate, IfOk};
ghost use Rattle.std.specs.List.{AllByRecursion};
ghost use Rattle.gp_stack.specs.Body.{HasRoom};
ghost use Rattle.gp_isa.specs.Limits.{most_cells};
ghost use Rattle.gp_journal.specs.Settings.{AreInRange};
ghost use Rattle.gp_cpu.specs.Samples.{rate_record};
ghost use Rattle.gp_samples.specs.RunEnds.{AreOffers, IsBegunReader};
ghost use Rattle.gp_world.specs.declared.ring_end.RingEnd.TheVariants.{Writing};
ghost use Rattle.gp_world.specs.RingEnds.{IsOf, offers_of};
ghost use Rattle.gp_world.specs.Rows.{blank, shares_of};

use crate::ring_end::RingEnd;
use crate::world::{Made, Numbers, World};
use gp_history::History;
use gp_isa::{Memory, Program};
use gp_machine::{Queue, Run, Settings};
use gp_ring::Writer;
use gp_samples::begun_ends;
use gp_stack::Body;
use gp_tally::{Book, Row, Share};
use std::alloc::Global;

// A book with a row for each actor, and their shares.
#[derive(Drop)]
struct Actors {
    book: Book,
    shares: Vec<Share>,
}

// The actors of a run as it begins.
fn issued(alloc: Global, workers: u32) -> Result<Actors, Memory>
    requires { workers + 1 < 2 ^ 32 }
    ensures rows { IfOk result (λ actors. actors.book.rows ≡ replicate (workers + 1) blank) }
    ensures shares { IfOk result (λ actors. actors.shares.items ≡ shares_of actors.book.book workers) }
{
    let count = workers + 1;
    let mut book = Book::new(alloc, count)?;
    let mut shares = Vec::new(alloc);
    for _ in 0..count {
        let row = Row {
            a: 0,
            b: 0,
            c: 0,
            d: 0,
        };
        shares.push(book.issue(row))?;
    }
    Ok(Actors { book, shares })
}

// A queue in which goroutine 0 waits.
fn first_waiting(alloc: Global, cells: u32) -> Result<Queue, Memory>
    requires some { 0 < cells }
    requires few { cells ≤ most_cells }
    ensures { IfOk result (λ waiting. waiting ≡ record { cells = cells; items = 0 ∷ [] }) }
{
    let mut waiting = Queue::new(alloc, cells)?;
    waiting.push_back(0);
    Ok(waiting)
}

// So many bodies, of goroutines that aren't born.
fn unborn(alloc: Global, program: &Program, count: u32) -> Result<Vec<Body>, Memory>
    ensures each { IfOk result (λ bodies. length bodies.items ≡ count) }
    ensures vacant { IfOk result (λ bodies. AllByRecursion (HasRoom program.now) bodies.items) }
{
    let mut bodies = Vec::new(alloc);
    for _ in 0..count {
        bodies.push(Body::vacant(alloc, program)?)?;
    }
    Ok(bodies)
}

impl<R: Run> World<R> {
    // The world of a run as it begins, with a book in which each actor has a row, and a ring to which the rate record was offered.
    fn with_book(
        alloc: Global,
        program: &Program,
        settings: &Settings,
        book: Book,
        writer: Writer,
    ) -> Result<World<R>, Memory>
        requires program { program.now ≡ R.program }
        requires settings { settings.now ≡ R.settings }
        requires range { AreInRange settings.now }
        requires rows { book.rows ≡ replicate (settings.now.workers + 1) blank }
        requires writer { AreOffers program.now settings.now [] writer.ring writer.offers }
        ensures { IfOk result (λ world. world ≡ record {
          book = book.book;
          journal = [];
          waiting = 0 ∷ [];
          ring = Writing writer;
          failed = false;
        }) }
    {
        Ok(World {
            history: History::new(alloc, program, settings)?,
            waiting: first_waiting(alloc, settings.cells)?,
            ring: RingEnd::Writing(writer),
            book,
            unborn: unborn(alloc, program, settings.cells - 1)?,
            numbers: Numbers {
                workers: settings.workers,
                room: settings.room,
                expected: 0,
            },
            failed: false,
        })
    }

    /// The world of a run as it begins, the reader's end of its ring, and a share for each worker and then for the profiler: no entry
    /// was made, goroutine 0 waits, and the rate record was offered to the ring. It takes the journal, the wait lists, the ring, the
    /// room for records, and a body for each cell but goroutine 0's.
    pub fn new(alloc: Global, program: &Program, settings: &Settings) -> Result<Made<R>, Memory>
        requires program { program.now ≡ R.program }
        requires settings { settings.now ≡ R.settings }
        requires range { AreInRange settings.now }
        ensures journal { IfOk result (λ made. made.world.journal ≡ []) }
        ensures waiting { IfOk result (λ made. made.world.waiting ≡ 0 ∷ []) }
        ensures ring { IfOk result (λ made. IsOf made.world.ring made.reader.ring) }
        ensures offers { IfOk result (λ made. offers_of made.world.ring ≡ rate_record R.settings ∷ []) }
        ensures reader { IfOk result (λ made. IsBegunReader R.program R.settings made.reader) }
        ensures failed { IfOk result (λ made. made.world.failed ≡ false) }
        ensures shares { IfOk result (λ made. made.shares.items ≡ shares_of made.world.book R.settings.workers) }
    {
        let Actors { book, shares } = issued(alloc, settings.workers)?;
        let (writer, reader) = begun_ends(alloc, program, settings)?;
        let world = World::with_book(alloc, program, settings, book, writer)?;
        Ok(Made {
            world,
            reader,
            shares,
        })
    }
}
