// A whole book.
ghost use Rattle.std.specs.Prelude.{map, IfOk, Option};
ghost use Rattle.book.specs.Book.{fields, seen};
ghost use Rattle.rules.specs.Histories.{History};
ghost use Rattle.desk.specs.Service.{Served, Runs};

use super::Desk;
use crate::replies::Outcome;
use book::{Item, read_book};
use std::alloc::{AllocError, Global};

impl Desk {
    // The outcomes of fields in their order.
    pub(crate) fn serve_all(
        &mut self,
        heap: Global,
        items: &[Item],
    ) -> Result<Vec<Outcome>, AllocError>
        ensures { IfOk result (λ v. (u : Option History) → (w : Option History) × Served self.old u (map seen items.now) v.items self.new w) }
    {
        let mut outcomes = Vec::new(heap);
        for item in items {
            outcomes.push(self.serve(heap, item)?)?;
        }
        Ok(outcomes)
    }
}

// The outcomes of a book's fields in their order, at a desk that begins empty. Bytes past the first 65,536 are not read.
pub fn run(heap: Global, book: &[u8]) -> Result<Vec<Outcome>, AllocError>
    ensures { IfOk result (λ v. Runs (fields book.now) v.items) }
{
    let items = read_book(heap, book)?;
    let mut desk = Desk::begin();
    let outcomes = desk.serve_all(heap, &items);
    desk.discard();
    outcomes
}
