//! Operations on the channels and mutexes of a program, one after another. They stand in code and not in rows, since who
//! operates must wait nowhere, which is proved of these.
ghost use Rattle.std.specs.Prelude.{◌≡◌, [], ◌∷◌, length, map, IfOk, IfSome};
ghost use Rattle.gp_sync.specs.WaitState.{empty_lists};

use gp_cases::{Page, Unanswered};
use gp_isa::{
    ChannelDecl, Channels, Function, Functions, LabelSets, Memory, MutexDecl, Mutexes, Parts,
    Program, Stmt, Stmts, Text, What, check,
};
use gp_sync::{Effect, WaitLists, Waiter};
use std::alloc::Global;

fn main(alloc: Global) -> Result<Functions, Memory> {
    let mut body = Stmts::new(alloc);
    body.push(Stmt {
        line: 5,
        what: What::Work { n: 1 },
    })?;
    let mut functions = Functions::new(alloc);
    functions.push(Function {
        name: Text::from_str(alloc, "main")?,
        line: 4,
        end: 6,
        body,
    })?;
    Ok(functions)
}

fn channels(alloc: Global) -> Result<Channels, Memory>
    ensures { IfOk result (λ channels. map (λ declared. declared.capacity) channels ≡ 1 ∷ 0 ∷ []) }
{
    let mut channels = Channels::new(alloc);
    channels.push(ChannelDecl {
        name: Text::from_str(alloc, "jobs")?,
        line: 1,
        capacity: 1,
    })?;
    channels.push(ChannelDecl {
        name: Text::from_str(alloc, "calls")?,
        line: 2,
        capacity: 0,
    })?;
    Ok(channels)
}

// What a file with channels of capacities 1 and 0 and a mutex declares.
fn parts(alloc: Global) -> Result<Parts, Memory>
    ensures channels { IfOk result (λ parts. map (λ declared. declared.capacity) parts.channels ≡ 1 ∷ 0 ∷ []) }
    ensures mutex { IfOk result (λ parts. length parts.mutexes ≡ 1) }
{
    let mut mutexes = Mutexes::new(alloc);
    mutexes.push(MutexDecl {
        name: Text::from_str(alloc, "lock")?,
        line: 3,
    })?;
    Ok(Parts {
        functions: main(alloc)?,
        channels: channels(alloc)?,
        mutexes,
        labels: LabelSets::new(alloc),
    })
}

fn program(alloc: Global) -> Option<Program>
    ensures channels { IfSome result (λ program. map (λ declared. declared.capacity) program.channels ≡ 1 ∷ 0 ∷ []) }
    ensures mutex { IfSome result (λ program. length program.mutexes ≡ 1) }
{
    let parts = parts(alloc).ok()?;
    if !parts.in_limits() {
        return None;
    }
    check(alloc, parts).ok()
}

// The wait lists of that program, for goroutines 0 to 7.
fn lists(alloc: Global) -> Option<WaitLists>
    ensures { IfSome result (λ lists. lists ≡ empty_lists 8 (1 ∷ 0 ∷ []) 1) }
{
    let program = program(alloc)?;
    WaitLists::new(alloc, &program, 8).ok()
}

#[tactic(auto, unfolding(gp_sync::specs::Places::places_of))]
fn full_buffer(alloc: Global) -> Option<[Effect; 3]> {
    let mut lists = lists(alloc)?;
    Some([
        lists.send(0, 1, 10),
        lists.send(0, 2, 11),
        lists.recv(0, 3, 12),
    ])
}

#[tactic(auto, unfolding(gp_sync::specs::Places::places_of))]
fn some_room(alloc: Global) -> Option<[Effect; 2]> {
    let mut lists = lists(alloc)?;
    Some([lists.send(0, 0, 30), lists.recv(0, 2, 31)])
}

#[tactic(auto, unfolding(gp_sync::specs::Places::places_of))]
fn no_buffer(alloc: Global) -> Option<[Effect; 2]> {
    let mut lists = lists(alloc)?;
    Some([lists.send(1, 0, 20), lists.recv(1, 3, 22)])
}

// What a mutex answers to two locks by one goroutine, one by another, and two unlocks; who waits first for it
// between them; and whether it is held at the end.
#[tactic(auto, unfolding(gp_sync::specs::Places::places_of))]
fn mutex_effects(alloc: Global) -> Option<([Effect; 5], [Option<Waiter>; 4], bool)> {
    let mut lists = lists(alloc)?;
    let taken = lists.lock(0, 4, 13);
    let none = lists.first_waiter(0);
    let again = lists.lock(0, 4, 14);
    let more = lists.lock(0, 6, 15);
    let first = lists.first_waiter(0);
    let woken = lists.unlock(0, 4, 16);
    let next = lists.first_waiter(0);
    let last = lists.unlock(0, 5, 17);
    let gone = lists.first_waiter(0);
    let held = lists.is_held(0);
    Some((
        [taken, again, more, woken, last],
        [none, first, next, gone],
        held,
    ))
}

/// What each operation does, and who waits.
pub fn effects(alloc: Global, page: &mut Page) -> Result<(), Unanswered> {
    let full = full_buffer(alloc).ok_or(Unanswered::Memory)?;
    page.debug("\n", &full.as_slice())?;
    let room = some_room(alloc).ok_or(Unanswered::Memory)?;
    page.debug("\n", &room.as_slice())?;
    let none = no_buffer(alloc).ok_or(Unanswered::Memory)?;
    page.debug("\n", &none.as_slice())?;
    let (effects, waiters, held) = mutex_effects(alloc).ok_or(Unanswered::Memory)?;
    page.debug("\n", &effects.as_slice())?;
    page.debug("\n", &waiters.as_slice())?;
    page.debug("\n", &held)?;
    Ok(())
}
