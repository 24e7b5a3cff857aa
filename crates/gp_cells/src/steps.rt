//! The steps on the words of cells: two exchanges of the slot's place, and the cuts and joins of seats.
ghost use Rattle.std.specs.Prelude.{◌≡◌, ◌≢◌, ◌<◌, [], ◌∷◌, true, false, Option};
ghost use Rattle.gp_cells.specs.declared.carried.Carried.{Carried};
ghost use Rattle.gp_cells.specs.Words.{IsWord, IsSettled, IsBusy};
ghost use Rattle.gp_cells.specs.kept.CellRule.{Fills};
ghost use Rattle.gp_cells.specs.kept.Views.{with_found, with_cell, with_stored, going_on};

use crate::carried::Carried;
use crate::roster::Roster;
use crate::view::View;
use atomic_table::{Join, Play, Seat, Shared, Split, Table, TableRule};
use gp_journal::Run;
use std::alloc::Global;
use std::marker::PhantomData;
use std::mem;

/// Words, bodies at home and views fit each other.
pub(crate) struct CellRule<K, R> {
    of: PhantomData<(K, R)>,
}

impl<K: Roster, R: Run> TableRule<Option<Carried>, View, ()> for CellRule<K, R> {
    ghost use Rattle.gp_cells.specs.kept.Views.{first_view};
    ghost use Rattle.gp_cells.specs.kept.CellRule.{AreCells};

    ghost holds = { λ _ s. AreCells R.program K.roster s };

    ghost first = { λ _. first_view };
}

/// A word and a slot for each cell, with their memory, and as threads see them.
pub(crate) type CellTable<K, R> = Table<Option<Carried>, View, (), CellRule<K, R>, Global>;

pub(crate) type CellWords<K, R> = Shared<Option<Carried>, View, (), CellRule<K, R>>;

/// What a caller steps with.
pub(crate) type CellSeat = Seat<Option<Carried>, View>;

/// A seat that has won a cell is cut off its pass, which goes on and holds one body more.
struct Cut;

impl Split<View> for Cut {
    ghost use Rattle.gp_cells.specs.kept.Views.{going_on};

    ghost left = { λ v. v };

    ghost right = { going_on };
}

/// A seat that has given its cell back is taken in by its pass, which holds one body less.
pub(crate) struct Back;

impl Join<View> for Back {
    ghost use Rattle.gp_cells.specs.kept.Views.{with_back, nobody};

    ghost both = { with_back };

    ghost spent = { nobody };
}

/// A new pass is split off.
pub(crate) struct Fork;

impl Split<View> for Fork {
    ghost use Rattle.gp_cells.specs.kept.Views.{with_fork, fork_view};

    ghost left = { with_fork };

    ghost right = { fork_view };
}

/// A pass is taken in.
pub(crate) struct Merge;

impl Join<View> for Merge {
    ghost use Rattle.gp_cells.specs.kept.Views.{nobody};

    ghost both = { λ v _. v };

    ghost spent = { nobody };
}

struct Seizes<K, R> {
    of: PhantomData<(K, R)>,
}

impl<K: Roster, R: Run> Play<Option<Carried>, View> for Seizes<K, R> {
    ghost use Rattle.gp_cells.specs.kept.Plays.{Seized};

    ghost then = { Seized R.program K.roster };
}

struct Settles;

impl Play<Option<Carried>, View> for Settles {
    ghost use Rattle.gp_cells.specs.kept.Plays.{Settled};

    ghost then = { Settled };
}

// An exchange from the word of an empty cell or of a body at home to that of an actor who has the slot. It tells the word that
// it found, and where that was the one expected, the seat has the slot, with what was at home there.
pub(crate) fn seize<K: Roster, R: Run>(
    words: &CellWords<K, R>,
    seat: &mut CellSeat,
    g: u32,
    from: u64,
    to: u64,
) -> u64
    requires table { seat.old.table_id ≡ words.now.table_id }
    requires size { words.now.table_id.slots ≡ words.now.table_id.words }
    requires cell { g < words.now.table_id.words }
    requires free { seat.old.me.0.holds ≡ false }
    requires bare { seat.old.me.1 ≡ [] }
    requires from { IsSettled from }
    requires to { IsBusy to }
    ensures table { seat.new.table_id ≡ seat.old.table_id }
    ensures lost { result ≢ from → (seat.new.me ≡ (with_found seat.old.me.0 g to result, [])) × IsWord result }
    ensures won { result ≡ from → (slot : Option Carried)
        × (seat.new.me ≡ (with_cell (with_found seat.old.me.0 g to result) g to, (g, slot) ∷ []))
        × Fills R.program K.roster g from slot }
{
    words.compare_exchange::<Seizes<K, R>>(seat, g as usize, from, to)
}

// A store of the word of an empty cell or of a body at home, by the seat that has the slot. The slot goes home with what is in
// it.
pub(crate) fn settle<K: Roster, R: Run>(
    words: &CellWords<K, R>,
    seat: &mut CellSeat,
    g: u32,
    word: u64,
)
    requires table { seat.old.table_id ≡ words.now.table_id }
    requires size { words.now.table_id.slots ≡ words.now.table_id.words }
    requires cell { g < words.now.table_id.words }
    requires holds { (seat.old.me.0.holds ≡ true) × (seat.old.me.0.cell ≡ g) }
    requires fills { (slot : Option Carried) × (seat.old.me.1 ≡ (g, slot) ∷ []) × Fills R.program K.roster g word slot }
    ensures table { seat.new.table_id ≡ seat.old.table_id }
    ensures view { seat.new.me ≡ (with_stored seat.old.me.0 g word, []) }
{
    words.store::<Settles>(seat, g as usize, word);
}

// Cuts the seat that has a slot off its pass, whose seat is a new one from then on.
pub(crate) fn cut_off<K: Roster, R: Run>(words: &CellWords<K, R>, seat: &mut CellSeat) -> CellSeat
    requires table { seat.old.table_id ≡ words.now.table_id }
    requires some { 0 < words.now.table_id.words }
    ensures pass { (seat.new.table_id ≡ seat.old.table_id) × (seat.new.me ≡ (going_on seat.old.me.0, [])) }
    ensures hand { (result.table_id ≡ seat.old.table_id) × (result.me ≡ seat.old.me) }
{
    let pass = words.split_seat::<Cut>(seat);
    mem::replace(seat, pass)
}
