ghost use Rattle.std.specs.Prelude.{◌≡◌, MatchResult};
ghost use Rattle.sheet.specs.Drafts.{enters, EnteredIn};

use super::Drafting;
use margin::Currency;
use sheet::{Draft, SheetFault};

impl Drafting {
    // An empty draft.
    pub(crate) fn begin() -> Drafting
        ensures { result.draft.currencies ≡ 0 }
    {
        Drafting {
            draft: Draft::begin(),
            table: [Currency::default(); 8],
        }
    }

    pub(crate) fn enter_currency(&mut self, currency: Currency) -> Result<(), SheetFault>
        ensures answer { result ≡ enters self.old.draft self.old.table currency.code currency.fx }
        ensures tables { MatchResult result (λ _. EnteredIn self.old.draft self.old.table currency.code currency.fx self.new.draft self.new.table) (λ _. (self.new.draft ≡ self.old.draft) × (self.new.table ≡ self.old.table)) }
    {
        self.draft.enter_currency(&mut self.table, currency)
    }

    // The draft, with an empty one in its place.
    pub(crate) fn take(&mut self) -> Draft
        ensures draft { result ≡ self.old.draft }
        ensures empty { self.new.draft.currencies ≡ 0 }
        ensures table { self.new.table ≡ self.old.table }
    {
        std::mem::replace(&mut self.draft, Draft::begin())
    }

    pub(crate) fn discard(self) {
        let Drafting { draft, table: _ } = self;
        draft.discard();
    }
}
