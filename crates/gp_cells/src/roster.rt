use std::marker::Brand;

/// Names the book of a run's goroutines: whoever has a body out of a cell knows that its share is of that book.
pub trait Roster {
    ghost use Rattle.atomic_table.specs.Seated.{TableId};

    /// The book.
    ghost roster: { TableId };
}

impl Roster for Brand {
    ghost use Rattle.gp_cells.specs.Roster.{no_roster};

    ghost roster = { no_roster };
}
