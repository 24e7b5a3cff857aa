ghost use Rattle.gp_roster.specs.RowLaws.{LiveRowsAreLive, RowsAreTold, RowsFollow, NewbornsAreLast};

/// Laws of the rows of legal journals: a live goroutine's row is live; an entry changes the row of the goroutine that makes it
/// alone, as its answer tells, and puts a newborn's behind the others, whose number is the next.
pub fn law_rows()
    ensures live { LiveRowsAreLive }
    ensures told { RowsAreTold }
    ensures follow { RowsFollow }
    ensures newborns { NewbornsAreLast }
{}
