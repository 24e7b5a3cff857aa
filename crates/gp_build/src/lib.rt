//! Profiles from samples: the messages of `profile.proto` as Go's `runtime/pprof` makes them (its `pprof.go` and
//! `proto.go`).
//!
//! There are two layers. [`profile`] makes any profile of a header and a list of samples, each a stack with a label set
//! and values. Samples stand in the profile as they are given: it neither groups nor orders them, since each profile of
//! Go's has a rule of its own for that. [`goroutine_profile`] makes the samples of records, and their profile.
//!
//! Here `main`, whose header stands in line 2 of `a.gp`, has spawned `f` (line 7) twice and works. Both `f` wait.
//!
//! ```text
//! records                 counted, in order       samples, of goroutine/count
//! g 0   main:5   set 0    f:8      2              stack [f:8]      set 0   values [2]
//! g 1   f:8      set 0    main:5   1              stack [main:5]   set 0   values [1]
//! g 2   f:8      set 0
//!
//! strings                 locations               messages
//! 0   ""                  1   f:8                 sample     locations [1], values [2]
//! 1   "goroutine"         2   main:5              sample     locations [2], values [1]
//! 2   "count"                                     location   1: function 1, line 8
//! 3   "f"                 functions               location   2: function 2, line 5
//! 4   "a.gp"              1   f                   function   1: name 3, filename 4, start line 7
//! 5   "main"              2   main                function   2: name 5, filename 4, start line 2
//! ```
//!
//! **Any profile.** One walk over the samples, site by site from the leaf, numbers what it meets in the order of first
//! need: texts, from 0, the empty one first; locations, one for each site, and functions, from 1 (`tables`, over the
//! keys of `need` and `site`). A site is a line of a function, and that function one of the program or the one that
//! stands for lost events. All messages name texts, locations and functions by their numbers (`messages`). A site that
//! was there needs nothing more, and it is found by its line, without a hash (`lines`).
//!
//! **Goroutines.** Records are counted: those that show one stack with equal labels make one sample, whose value is
//! their number (`samples`, over the keys of `shown`). The samples are put in order, falling value, then stack, then
//! labels (`compare`). Stacks that stand near one another in order begin with the same frames, so most comparisons look at
//! numbers of blocks of frames and at the frames of one block (`spelled`). Frames are ordered by the names of their functions;
//! the functions are ranked by name once a profile, and a comparison looks at their ranks (`ranks`).
//!
//! **Block and mutex.** The sums of waits come in their order (`gp_events`), and each makes a sample of two values, how many
//! waits there were and how many nanoseconds they took, each at most 2^63 - 1 (`contention`): [`contention_profile`].
//!
//! **CPU.** The sums of the records that a reader took (`gp_cpu`) come in the order in which they are first met, and each makes a
//! sample of two values, how many ticks it counts and the nanoseconds that these stand for, each at most 2^63 - 1 (`cpu`):
//! [`cpu_profile`]. What was lost makes one sample, at its place, whose one site is that of lost events.
//!
//! **Read again.** A profile that is built is valid, whatever it is built of: its numbers lie in the ranges of their types, its
//! texts are texts, each number names what is there, and no id stands twice. So its canonical bytes give it back (`gp_wire`).
//!
//! The profile that has to come out is a definition over lists: any profile in `specs/Message.antt`, where a number is
//! a place in the list of what was seen first (`specs/FirstNeed.antt`, `specs/Numbers.antt`); the goroutine profile in
//! `specs/Profile.antt`, that of sums in `specs/Contention.antt`, that of samples in `specs/Cpu.antt`; groups are filters and
//! counts and an order is insertion one by one (`specs/Samples.antt`). The code has maps in insertion order and one stable
//! sort, so its time grows with the number of records and sites, and that of the sort besides.
//!
//! The empty text has number 0, which in a label says that there is no text. So the empty value of a label is a text of
//! its own in the string table, which is empty too.
#![tactic(auto)]

mod building;
mod compare;
mod contention;
mod cpu;
mod goroutine;
mod lines;
mod lookup;
mod means;
mod meant;
mod messages;
mod need;
mod ranks;
mod sample;
mod samples;
mod shown;
mod site;
mod spelled;
mod tables;

pub use building::profile;
pub use contention::contention_profile;
pub use cpu::cpu_profile;
pub use goroutine::goroutine_profile;
pub use means::meaning;
pub use meant::{
    Meaning, MeantFrame, MeantFrames, MeantLabel, MeantLabels, MeantSample, MeantSamples,
};
pub use sample::{Header, Kind, Kinds, StackSample};
pub use site::{Routine, Site, Sites};
