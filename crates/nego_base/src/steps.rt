ghost use Rattle.std.specs.Prelude.{◌≡◌, ◌+◌, ◌<◌};

use std::marker::Model;
use std::sync::ledger::{Blank, Book, Ledger, Share};

/// How many steps were taken, for contracts alone: it has no bytes, and only `tick` changes it.
#[derive(Drop)]
pub struct Steps<C: Ledger> {
    book: Book<C>,
    share: Share<C>,
}

impl<C: Ledger> Model for Steps<C> {
    ghost use Rattle.std.specs.Prelude.{ℕ, ◌<◌};

    ghost Value = { ℕ };

    ghost view = { λ s. s.book.total };

    ghost invariant = { λ s. 0 < s.share.parts };
}

impl<C: Ledger> Steps<C> {
    /// A counter that stands at 0, of a new ledger.
    pub fn open(blank: Blank) -> Steps<C>
        requires name { blank.name ≡ C.name }
        requires parts { blank.parts ≡ C.parts }
        requires share { 0 < blank.parts }
        ensures { result ≡ 0 }
    {
        let (book, share) = blank.open::<C>();
        Steps { book, share }
    }

    /// Counts one step.
    pub fn tick(&mut self)
        ensures { self.new ≡ self.old + 1 }
    {
        self.book.add(&mut self.share, 1);
    }
}
