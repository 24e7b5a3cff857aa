ghost use Rattle.std.specs.Prelude.{◌≡◌};

use crate::row::Row;
use crate::view::View;
use atomic_table::Badge;
use std::marker::Model;

/// The one share of a row. Its row is the book's, as `Book::check` tells.
#[derive(Drop)]
pub struct Share {
    pub(crate) number: u32,
    pub(crate) row: Row,
    pub(crate) badge: Badge<View>,
}

impl Model for Share {
    ghost use Rattle.std.specs.Prelude.{◌≡◌, [], ◌∷◌};
    ghost use Rattle.gp_tally.specs.Rows.{Part};
    ghost use Rattle.gp_tally.specs.kept.Views.{claimer};

    ghost Value = { Part };

    ghost view = { λ s. record { book = s.badge.table_id; number = s.number; row = s.row } };

    ghost invariant = { λ s. s.badge.views ≡ claimer s.number s.row ∷ [] };
}

impl Share {
    /// The number of its row, counted from 0 in its book.
    pub fn number(&self) -> u32
        ensures { result ≡ self.now.number }
    {
        self.number
    }

    /// Its row.
    pub fn row(&self) -> Row
        ensures { result ≡ self.now.row }
    {
        self.row
    }
}
