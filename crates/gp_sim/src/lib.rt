//! Runs in a stated order: which actor acts in each turn is chosen by numbers.
//!
//! In each turn one of the actors that can act does: the workers in their order, then the profiler, then the reader. A worker
//! that runs a goroutine makes its due entry; an idle one goes on with the head of the queue, and records it first where it
//! has still to be recorded. The profiler records the first goroutine that has still to be recorded, closes its profile, or
//! opens or refuses the one that is asked for. The reader reads the ring of samples once, where a record is unread or a loss
//! is pending. Where one actor alone can act it does; where several can, the next number modulo how many there are is the
//! place of the one that acts. The numbers are those of the option `picks`, and then the words of the generator PCG32 at the
//! option's seed, on stream 1. Where no worker and no profiler can act the run is complete: the ring is closed and read to
//! its end.
//!
//! **Samples** go through the ring of `gp_samples`: the rate record is offered to it as the run begins, and with each Tick the
//! sample of its goroutine in the state before.
//!
//! So the journal and the reader's records are functions of program and options (`specs/Choice.antt`: `sim_journal` and
//! `sim_records`, two parts of the one run that turns give), and `simulate` gives just these, with the records of each profile
//! and the sums of its block and mutex events. Its records cover the journal's samples and begin with their head: each sample
//! is delivered, or counted in one loss. Each of its turns makes an entry or takes records, but for the last, which finds the
//! end of the ring; so they are at most twice as many as a legal journal may have entries, and 2.
//! `law_choice` says of every program: what may be chosen is legal, the journal that the choice gives is finished, and its
//! records cover the samples.
//!
//! `simulate` keeps the run's `History`, the numbers, a body for each goroutine that was born (`Bodies`), which stands where
//! its goroutine stands, the ring, and what was read (`Collector`). A turn works out the act of one actor alone
//! (`next_step`). How many can act is known by numbers: all workers where the idle ones can go on with the head of the queue,
//! else those that run a goroutine, whom the machine counts; the profiler by whether a profile is active or asked for; the
//! reader by what the ring tells. With three workers, of whom 0 and 2 run goroutines, and the next number 5:
//!
//! ```text
//! the queue is empty, no profile is active       workers 0 and 2 can act         5 % 2 = 1, so worker 2 acts
//! somebody stands in the queue                   workers 0, 1 and 2 can          5 % 3 = 2, so worker 2 acts
//! the same, and a profile is active              they and the profiler can       5 % 4 = 1, so worker 1 acts
//! the same, and a sample is unread               they and the reader can too     5 % 5 = 0, so worker 0 acts
//! ```
//!
//! Then the turn changes what is kept in place: it first makes what takes memory, the copy of a stack for a Record or for an
//! event that is kept, and the body of whoever is born, and where memory is refused for an entry all is as before. Its time
//! doesn't grow with the number of goroutines, and with that of workers only by a bit of a word for each that runs before the
//! one that acts; a Record or an event takes time by the frames that it copies, a sample by those that it writes into the
//! ring, for which it takes no memory, and a read by the words that it takes.
#![tactic(auto)]

mod actions;
mod bodies;
mod full_run;
mod laws;
mod making;
mod numbers;
mod simulation;

pub use full_run::{Simulated, simulate};
pub use laws::law_choice;
