//! The three kinds of step: a share's seat is split off and joined, and a load adds a row, changes it or finds it.
ghost use Rattle.std.specs.Prelude.{◌≡◌, ◌<◌, [], ◌∷◌, ◌++◌, length, slice_get, slice_set, Some};
ghost use Rattle.gp_tally.specs.kept.Views.{keeper, holder};

use crate::row::Row;
use crate::view::View;
use atomic_table::{Join, Play, Seat, Shared, Split, TableRule};
use std::marker::{Brand, PhantomData};

/// Book and shares agree.
pub(crate) struct Agreement;

impl TableRule<(), View, ()> for Agreement {
    ghost use Rattle.std.specs.Prelude.{[]};
    ghost use Rattle.gp_tally.specs.kept.Views.{keeper};
    ghost use Rattle.gp_tally.specs.kept.Agreement.{Agrees};

    ghost holds = { λ _ s. Agrees s };

    ghost first = { λ _. keeper [] };
}

/// A share in hand is cut off, or taken in hand.
pub(crate) struct InHand;

impl Split<View> for InHand {
    ghost use Rattle.gp_tally.specs.kept.Views.{book_of, share_of};

    ghost left = { book_of };

    ghost right = { share_of };
}

impl Join<View> for InHand {
    ghost use Rattle.gp_tally.specs.kept.Views.{with_share, nobody};

    ghost both = { with_share };

    ghost spent = { nobody };
}

/// The row that a step writes. Each call of a program picks it.
pub(crate) trait Written {
    ghost use Rattle.gp_tally.specs.declared.row.Row.{Row};

    ghost written: { Row };
}

impl Written for Brand {
    ghost use Rattle.gp_tally.specs.kept.Views.{no_row};

    ghost written = { no_row };
}

/// The row in hand is the book's.
struct Finds;

impl Play<(), View> for Finds {
    ghost use Rattle.gp_tally.specs.kept.Views.{found};

    ghost then = { found };
}

/// A row is added, and its share is in hand.
struct Adds<E> {
    written: PhantomData<E>,
}

impl<E: Written> Play<(), View> for Adds<E> {
    ghost use Rattle.gp_tally.specs.kept.Views.{added};

    ghost then = { added E.written };
}

/// The row in hand was the book's, and both are another.
struct Changes<E> {
    written: PhantomData<E>,
}

impl<E: Written> Play<(), View> for Changes<E> {
    ghost use Rattle.gp_tally.specs.kept.Views.{changed};

    ghost then = { changed E.written };
}

/// The word of a book, with all that is known beside it.
pub(crate) type Tally = Shared<(), View, (), Agreement>;

// The row in hand is the book's.
pub(crate) fn find(shared: &Tally, seat: &mut Seat<(), View>)
    requires table { (seat.old.table_id ≡ shared.now.table_id) × (0 < shared.now.table_id.words) }
    requires view { seat.old.me ≡ (holder seat.old.me.0.rows seat.old.me.0.number seat.old.me.0.claim, []) }
    ensures agree { slice_get seat.old.me.0.rows seat.old.me.0.number ≡ Some seat.old.me.0.claim }
    ensures same { (seat.new.table_id ≡ seat.old.table_id) × (seat.new.me ≡ seat.old.me) }
{
    shared.load::<Finds>(seat, 0);
}

// Adds a row, whose share is in hand afterwards.
pub(crate) fn add<E: Written>(shared: &Tally, seat: &mut Seat<(), View>, row: &Row)
    requires table { (seat.old.table_id ≡ shared.now.table_id) × (0 < shared.now.table_id.words) }
    requires view { seat.old.me ≡ (keeper seat.old.me.0.rows, []) }
    requires row { E.written ≡ row.now }
    ensures table { seat.new.table_id ≡ seat.old.table_id }
    ensures view { seat.new.me ≡ (holder (seat.old.me.0.rows ++ row.now ∷ []) (length seat.old.me.0.rows) row.now, []) }
{
    let _row = *row;
    shared.load::<Adds<E>>(seat, 0);
}

// Changes the row in hand, in the book too.
pub(crate) fn change<E: Written>(shared: &Tally, seat: &mut Seat<(), View>, row: &Row)
    requires table { (seat.old.table_id ≡ shared.now.table_id) × (0 < shared.now.table_id.words) }
    requires view { seat.old.me ≡ (holder seat.old.me.0.rows seat.old.me.0.number seat.old.me.0.claim, []) }
    requires row { E.written ≡ row.now }
    ensures agree { slice_get seat.old.me.0.rows seat.old.me.0.number ≡ Some seat.old.me.0.claim }
    ensures table { seat.new.table_id ≡ seat.old.table_id }
    ensures view { seat.new.me ≡ (holder (slice_set seat.old.me.0.rows seat.old.me.0.number row.now) seat.old.me.0.number row.now, []) }
{
    let _row = *row;
    shared.load::<Changes<E>>(seat, 0);
}
