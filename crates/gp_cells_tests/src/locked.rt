//! What lies behind the lock. Nothing is known of a locked value but what its type says, so the type names the book.
ghost use Rattle.std.specs.Prelude.{◌≡◌, ◌+◌, ◌^◌, ◌<◌};

use gp_cells::Roster;
use gp_tally::{Book, Row, Share};
use std::marker::{Model, PhantomData};

/// The book of the goroutines.
#[derive(Drop)]
pub(crate) struct Locked<K: Roster> {
    book: Book,
    of: PhantomData<K>,
}

impl<K: Roster> Model for Locked<K> {
    ghost use Rattle.std.specs.Prelude.{◌≡◌};
    ghost use Rattle.gp_tally.specs.Rows.{Rows};

    ghost Value = { Rows };

    ghost view = { λ l. l.book };

    ghost invariant = { λ l. l.book.book ≡ K.roster };
}

impl<K: Roster> Locked<K> {
    pub(crate) fn new(book: Book) -> Locked<K>
        requires { book.book ≡ K.roster }
        ensures { result ≡ book }
    {
        Locked {
            book,
            of: PhantomData,
        }
    }

    /// A goroutine passes so many points, in its share and in the book.
    pub(crate) fn pass(&mut self, share: &mut Share, points: u64)
        requires book { share.old.book ≡ K.roster }
        requires fits { share.old.row.c + points < 2 ^ 64 }
        ensures row { share.new.row ≡ record share.old.row { c = share.old.row.c + points } }
        ensures same { (share.new.book ≡ share.old.book) × (share.new.number ≡ share.old.number) }
    {
        let row = share.row();
        self.book.set(
            share,
            Row {
                c: row.c + points,
                ..row
            },
        );
    }
}
