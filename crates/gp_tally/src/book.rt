ghost use Rattle.std.specs.Prelude.{◌≡◌, ◌<◌, [], ◌∷◌, ◌++◌, length, slice_get, slice_set, Some, IfOk};

use crate::row::Row;
use crate::share::Share;
use crate::steps::{Agreement, InHand, add, change, find};
use crate::view::View;
use atomic_table::{Badge, Seat, Table};
use gp_isa::Memory;
use std::alloc::Global;
use std::marker::{Brand, Model};
use std::mem;

/// Rows by number, counted from 0. Each has one share outside.
#[derive(Drop)]
pub struct Book {
    table: Table<(), View, (), Agreement, Global>,
    seat: Seat<(), View>,
    rows: Vec<Row>,
    room: u32,
}

impl Model for Book {
    ghost use Rattle.std.specs.Prelude.{◌≡◌, ◌<◌, ◌≤◌, [], vec_len, vec_capacity};
    ghost use Rattle.gp_tally.specs.Rows.{Rows};
    ghost use Rattle.gp_tally.specs.kept.Views.{keeper};

    ghost Value = { Rows };

    ghost view = { λ b. record { book = b.table.shared.table_id; room = b.room; rows = b.rows.items } };

    ghost invariant = { λ b. (b.seat.table_id ≡ b.table.shared.table_id) × (0 < b.table.shared.table_id.words)
        × (b.seat.me ≡ (keeper b.rows.items, [])) × (b.room ≤ vec_capacity b.rows) };
}

impl Book {
    /// A book without rows, with room for `rows` of them.
    pub fn new(alloc: Global, rows: u32) -> Result<Book, Memory>
        ensures rows { IfOk result (λ book. book.rows ≡ []) }
        ensures room { IfOk result (λ book. book.room ≡ rows) }
    {
        let (table, seat) = Table::of_words(alloc, &[0], &())?;
        Ok(Book {
            table,
            seat,
            rows: Vec::with_capacity(alloc, rows as usize)?,
            room: rows,
        })
    }

    /// Adds a row under the next number, counted from 0, and gives its share. Fewer rows than the book has room for were issued.
    pub fn issue(&mut self, row: Row) -> Share
        requires { length self.old.rows < self.old.room }
        ensures rows { self.new.rows ≡ self.old.rows ++ row ∷ [] }
        ensures number { result.number ≡ length self.old.rows }
        ensures row { result.row ≡ row }
        ensures book { result.book ≡ self.old.book }
        ensures same { (self.new.book ≡ self.old.book) × (self.new.room ≡ self.old.room) }
    {
        let Book {
            table,
            seat,
            rows,
            ..
        } = self;
        let number = rows.len() as u32;
        add::<Brand>(&table.shared, seat, &row);
        let badge = table.shared.split_seat::<InHand>(seat).into_badge();
        rows.push_reserved(row);
        Share { number, row, badge }
    }

    /// The book's row of the share's number is the share's row. Nothing changes. The share is of this book.
    pub fn check(&mut self, share: &mut Share)
        requires { share.old.book ≡ self.old.book }
        ensures agree { slice_get self.old.rows share.old.number ≡ Some share.old.row }
        ensures book { self.new ≡ self.old }
        ensures share { share.new ≡ share.old }
    {
        let Book { table, seat, .. } = self;
        let badge = mem::replace(&mut share.badge, Badge::blank());
        table.shared.join_seat::<InHand>(seat, badge.into_seat());
        find(&table.shared, seat);
        share.badge = table.shared.split_seat::<InHand>(seat).into_badge();
    }

    /// The share's row and the book's row of its number, which were equal, become `row`. All other rows stay. The share is of
    /// this book.
    pub fn set(&mut self, share: &mut Share, row: Row)
        requires { share.old.book ≡ self.old.book }
        ensures agree { slice_get self.old.rows share.old.number ≡ Some share.old.row }
        ensures rows { self.new.rows ≡ slice_set self.old.rows share.old.number row }
        ensures row { share.new.row ≡ row }
        ensures number { share.new.number ≡ share.old.number }
        ensures book { (self.new.book ≡ self.old.book) × (share.new.book ≡ share.old.book) }
        ensures room { self.new.room ≡ self.old.room }
    {
        let Book {
            table,
            seat,
            rows,
            ..
        } = self;
        let badge = mem::replace(&mut share.badge, Badge::blank());
        table.shared.join_seat::<InHand>(seat, badge.into_seat());
        change::<Brand>(&table.shared, seat, &row);
        share.badge = table.shared.split_seat::<InHand>(seat).into_badge();
        rows[share.number as usize] = row;
        share.row = row;
    }
}
