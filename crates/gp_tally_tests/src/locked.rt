//! What lies behind the lock. Nothing is known of a locked value but what its type says, so the type names the book.
ghost use Rattle.std.specs.Prelude.{◌≡◌, ◌+◌, ◌^◌, ◌<◌, Some, slice_get};
ghost use Rattle.gp_tally_tests.specs.Counted.{counted};

use gp_tally::{Book, Row, Share};
use std::marker::{Brand, Model, PhantomData};

/// Which book it is. Each call of a program picks it.
pub trait Naming {
    ghost use Rattle.atomic_table.specs.Seated.{TableId};

    ghost named: { TableId };
}

impl Naming for Brand {
    ghost use Rattle.gp_tally_tests.specs.Counted.{no_book};

    ghost named = { no_book };
}

/// The book of that name.
#[derive(Drop)]
pub struct Locked<J: Naming> {
    book: Book,
    of: PhantomData<J>,
}

impl<J: Naming> Model for Locked<J> {
    ghost use Rattle.std.specs.Prelude.{◌≡◌};
    ghost use Rattle.gp_tally.specs.Rows.{Rows};

    ghost Value = { Rows };

    ghost view = { λ l. l.book };

    ghost invariant = { λ l. l.book.book ≡ J.named };
}

impl<J: Naming> Locked<J> {
    pub fn new(book: Book) -> Locked<J>
        requires { book.book ≡ J.named }
        ensures { result ≡ book }
    {
        Locked {
            book,
            of: PhantomData,
        }
    }

    /// Counts one more turn of the share's owner.
    pub fn count(&mut self, share: &mut Share, turns: u64)
        requires book { share.old.book ≡ J.named }
        requires row { share.old.row ≡ counted turns }
        requires most { turns + 1 < 2 ^ 64 }
        ensures row { share.new.row ≡ counted (turns + 1) }
        ensures same { (share.new.book ≡ share.old.book) × (share.new.number ≡ share.old.number) }
    {
        let row = share.row();
        self.book.set(
            share,
            Row {
                a: row.a + 1,
                ..row
            },
        );
    }

    /// The share's row is the book's.
    pub fn check(&mut self, share: &mut Share)
        requires { share.old.book ≡ J.named }
        ensures agree { slice_get self.old.rows share.old.number ≡ Some share.old.row }
        ensures same { (self.new ≡ self.old) × (share.new ≡ share.old) }
    {
        self.book.check(share);
    }

    pub fn into_book(self) -> Book
        ensures { result ≡ self }
    {
        let Locked { book, of: _ } = self;
        book
    }
}
