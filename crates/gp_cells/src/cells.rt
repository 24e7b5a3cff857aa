ghost use Rattle.std.specs.Prelude.{◌≡◌, ◌<◌, ◌≤◌, ◌^◌, [], ◌∷◌, true, false, Option, Some, None, IfOk};
ghost use Rattle.gp_cells.specs.declared.carried.Carried.{Carried};
ghost use Rattle.gp_cells.specs.Words.{dead_word, home_word, busy_word, IsHome, IsWord};
ghost use Rattle.gp_cells.specs.Goroutine.{IsBodyOf};
ghost use Rattle.gp_cells.specs.Held.{hold_of};
ghost use Rattle.gp_cells.specs.Pass.{new_pass, giving};
ghost use Rattle.gp_cells.specs.Answers.{Claims, Takes, Bears};
ghost use Rattle.gp_cells.specs.kept.Refusals.{Refuses};
ghost use Rattle.gp_cells.specs.kept.Views.{with_stored, going_on};

use crate::bear::Bear;
use crate::carried::Carried;
use crate::claim::Claim;
use crate::hand::Hand;
use crate::held::Held;
use crate::pass::Pass;
use crate::roster::Roster;
use crate::steps::{Back, CellSeat, CellTable, CellWords, cut_off, seize, settle};
use crate::take::Take;
use crate::word::{DEAD, busy, epoch_in, home, kind};
use gp_isa::Memory;
use gp_journal::Run;
use std::alloc::Global;
use std::marker::Model;

/// A cell for each goroutine, with its word and its body. Any number of threads may call at once.
#[derive(Drop)]
pub struct Cells<K: Roster, R: Run> {
    pub(crate) table: CellTable<K, R>,
}

impl<K: Roster, R: Run> Model for Cells<K, R> {
    ghost use Rattle.std.specs.Prelude.{◌≡◌, ◌<◌};
    ghost use Rattle.gp_cells.specs.CellArray.{CellArray};

    ghost Value = { CellArray };

    ghost view = { λ c. record { table = c.table.shared.table_id; count = c.table.shared.table_id.words } };

    ghost invariant = { λ c. (0 < c.table.shared.table_id.words)
        × (c.table.shared.table_id.slots ≡ c.table.shared.table_id.words) };
}

// What a claim is answered that found another word than the one before.
fn refused(found: u64) -> Claim
    requires { IsWord found }
    ensures { Refuses found result }
{
    match kind(found) {
        0 => Claim::Dead(found),
        1 => Claim::Satisfied(found),
        _ => Claim::Busy(found),
    }
}

// Puts something else into the slot that a seat has, and takes out what is there.
fn swap<K: Roster, R: Run>(
    words: &CellWords<K, R>,
    seat: &mut CellSeat,
    g: u32,
    new: Option<Carried>,
) -> Option<Carried>
    requires table { seat.old.table_id ≡ words.now.table_id }
    requires slot { (slot : Option Carried) × (seat.old.me.1 ≡ (g, slot) ∷ []) }
    ensures table { seat.new.table_id ≡ seat.old.table_id }
    ensures taken { seat.old.me.1 ≡ (g, result) ∷ [] }
    ensures view { seat.new.me ≡ (seat.old.me.0, (g, new) ∷ []) }
{
    words.exchange(seat, g as usize, new)
}

// What a seat has won: the body comes out, and the seat is cut off its pass.
fn hold<K: Roster, R: Run>(
    words: &CellWords<K, R>,
    seat: &mut CellSeat,
    cell: u32,
    claims: bool,
    epoch: u32,
    actor: u32,
) -> Held
    requires table { seat.old.table_id ≡ words.now.table_id }
    requires cell { cell < words.now.table_id.words }
    requires epoch { epoch < 2 ^ 30 }
    requires holds { (seat.old.me.0.holds ≡ true) × (seat.old.me.0.cell ≡ cell)
        × (seat.old.me.0.word ≡ busy_word claims epoch actor) }
    requires slot { (slot : Option Carried) × (seat.old.me.1 ≡ (cell, slot) ∷ [])
        × ((carried : Carried) × (slot ≡ Some carried) × IsBodyOf R.program K.roster cell carried) }
    ensures pass { (seat.new.table_id ≡ seat.old.table_id) × (seat.new.me ≡ (going_on seat.old.me.0, [])) }
    ensures hold { hold_of result ≡ record {
      cells = seat.old.table_id;
      pass = seat.old.me.0.name;
      cell = cell;
      claims = claims;
      epoch = epoch;
      actor = actor;
    } }
    ensures body { IsBodyOf R.program K.roster cell result.body }
{
    let mut seat = cut_off(words, seat);
    match swap(words, &mut seat, cell, None) {
        Some(body) => Held {
            body,
            hand: Hand {
                seat,
                cell,
                claims,
                epoch,
                actor,
            },
        },
        None => unreachable!(),
    }
}

// A body goes into the slot that a seat has, and home, with a home word.
fn put_home<K: Roster, R: Run>(
    words: &CellWords<K, R>,
    seat: &mut CellSeat,
    g: u32,
    body: Carried,
    word: u64,
)
    requires table { seat.old.table_id ≡ words.now.table_id }
    requires size { words.now.table_id.slots ≡ words.now.table_id.words }
    requires cell { g < words.now.table_id.words }
    requires holds { (seat.old.me.0.holds ≡ true) × (seat.old.me.0.cell ≡ g) }
    requires slot { seat.old.me.1 ≡ (g, None) ∷ [] }
    requires word { IsHome word }
    requires body { IsBodyOf R.program K.roster g body }
    ensures table { seat.new.table_id ≡ seat.old.table_id }
    ensures view { seat.new.me ≡ (with_stored seat.old.me.0 g word, []) }
{
    match swap(words, seat, g, Some(body)) {
        None => settle(words, seat, g, word),
        Some(_) => unreachable!(),
    }
}

impl<K: Roster, R: Run> Cells<K, R> {
    /// Empty cells, with all memory that they ever need, and the pass from which all others are split.
    pub fn new(alloc: Global, cells: u32) -> Result<(Cells<K, R>, Pass), Memory>
        requires { 1 ≤ cells }
        ensures count { IfOk result (λ made. made.0.count ≡ cells) }
        ensures pass { IfOk result (λ made. made.1 ≡ new_pass made.0.table []) }
    {
        let words = vec![in alloc; 0; cells as usize]?;
        let (table, seat) = CellTable::<K, R>::vacant(
            alloc,
            words.as_slice(),
            cells as usize,
            &(),
        )?;
        Ok((Cells { table }, Pass { seat }))
    }

    /// Claims goroutine `g` for an actor that records it in profile `epoch`: one exchange from the home word of the epoch before.
    pub fn claim(&self, pass: &mut Pass, g: u32, actor: u32, epoch: u32) -> Claim
        requires pass { pass.old.cells ≡ self.now.table }
        requires cell { g < self.now.count }
        requires some { 1 ≤ epoch }
        requires epoch { epoch < 2 ^ 30 }
        ensures { Claims R.program K.roster pass.old pass.new g actor epoch result }
    {
        let words = &self.table.shared;
        let from = home(epoch - 1);
        let found = seize(words, &mut pass.seat, g, from, busy(true, epoch, actor));
        if found != from {
            return refused(found);
        }
        Claim::Held(hold(words, &mut pass.seat, g, true, epoch, actor))
    }

    /// Gives a claimed body back: its goroutine was recorded in the claim's epoch, with which it is at home from now on.
    pub fn satisfy(&self, pass: &mut Pass, held: Held)
        requires pass { pass.old.cells ≡ self.now.table }
        requires held { ((hold_of held).cells ≡ self.now.table) × ((hold_of held).pass ≡ pass.old.name) }
        requires claims { (hold_of held).claims ≡ true }
        requires body { IsBodyOf R.program K.roster (hold_of held).cell held.body }
        ensures { pass.new ≡ giving pass.old (hold_of held).cell (home_word (hold_of held).epoch) }
    {
        let word = home(held.epoch());
        self.give_back(pass, held, word);
    }

    /// Takes goroutine `g` for an actor that runs it: one exchange from `expected`, which is a home word.
    pub fn take(&self, pass: &mut Pass, g: u32, actor: u32, expected: u64) -> Take
        requires pass { pass.old.cells ≡ self.now.table }
        requires cell { g < self.now.count }
        requires home { IsHome expected }
        ensures { Takes R.program K.roster pass.old pass.new g actor expected result }
    {
        let words = &self.table.shared;
        let epoch = epoch_in(expected);
        let running = busy(false, epoch, actor);
        let found = seize(words, &mut pass.seat, g, expected, running);
        if found != expected {
            return Take::Changed(found);
        }
        Take::Held(hold(words, &mut pass.seat, g, false, epoch, actor))
    }

    /// Gives a body back that was taken. Its goroutine's epoch is `epoch`.
    pub fn give(&self, pass: &mut Pass, held: Held, epoch: u32)
        requires pass { pass.old.cells ≡ self.now.table }
        requires held { ((hold_of held).cells ≡ self.now.table) × ((hold_of held).pass ≡ pass.old.name) }
        requires takes { (hold_of held).claims ≡ false }
        requires body { IsBodyOf R.program K.roster (hold_of held).cell held.body }
        requires epoch { epoch < 2 ^ 30 }
        ensures { pass.new ≡ giving pass.old (hold_of held).cell (home_word epoch) }
    {
        self.give_back(pass, held, home(epoch));
    }

    /// Puts away a body that was taken, whose goroutine is dead. The cell is empty from now on.
    pub fn bury(&self, pass: &mut Pass, held: Held) -> Carried
        requires pass { pass.old.cells ≡ self.now.table }
        requires held { ((hold_of held).cells ≡ self.now.table) × ((hold_of held).pass ≡ pass.old.name) }
        requires takes { (hold_of held).claims ≡ false }
        ensures pass { pass.new ≡ giving pass.old (hold_of held).cell dead_word }
        ensures body { result ≡ held.body }
    {
        let Held { body, hand } = held;
        let Hand { mut seat, cell, .. } = hand;
        let words = &self.table.shared;
        settle(words, &mut seat, cell, DEAD);
        words.join_seat::<Back>(&mut pass.seat, seat);
        body
    }

    /// Brings the body of goroutine `g` into its cell, where that is empty: an exchange from the word of an empty cell to that of
    /// an actor who runs it, and then a store of the home word of `epoch`.
    pub fn bear(&self, pass: &mut Pass, g: u32, actor: u32, body: Carried, epoch: u32) -> Bear
        requires pass { pass.old.cells ≡ self.now.table }
        requires cell { g < self.now.count }
        requires body { IsBodyOf R.program K.roster g body }
        requires epoch { epoch < 2 ^ 30 }
        ensures { Bears pass.old pass.new g actor body epoch result }
    {
        let words = &self.table.shared;
        let found = seize(words, &mut pass.seat, g, DEAD, busy(false, epoch, actor));
        if found != DEAD {
            return Bear::Taken { word: found, body };
        }
        put_home(words, &mut pass.seat, g, body, home(epoch));
        Bear::Home
    }

    // A body goes home, with a home word, and its seat back into its pass.
    fn give_back(&self, pass: &mut Pass, held: Held, word: u64)
        requires pass { pass.old.cells ≡ self.now.table }
        requires held { (hold_of held).cells ≡ self.now.table }
        requires body { IsBodyOf R.program K.roster (hold_of held).cell held.body }
        requires word { IsHome word }
        ensures { pass.new ≡ giving pass.old (hold_of held).cell word }
    {
        let Held { body, hand } = held;
        let Hand { mut seat, cell, .. } = hand;
        let words = &self.table.shared;
        put_home(words, &mut seat, cell, body, word);
        words.join_seat::<Back>(&mut pass.seat, seat);
    }
}
