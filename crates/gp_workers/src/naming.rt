use std::marker::Brand;

/// Names the book of a run's actors and the ring of its samples: whoever has the lock's value and a share, or the end of the ring
/// that is read, of one naming knows that they are of the same book and of the same ring.
pub trait Naming {
    ghost use Rattle.atomic_table.specs.Seated.{TableId};
    ghost use Rattle.gp_ring.specs.TwoEnds.{RingOf};

    /// The book.
    ghost book: { TableId };

    /// The ring.
    ghost ring: { RingOf };
}

impl Naming for Brand {
    ghost use Rattle.gp_workers.specs.Named.{no_book, no_ring};

    ghost book = { no_book };

    ghost ring = { no_ring };
}
