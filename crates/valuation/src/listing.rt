// The instruments of a sheet, in the order of their codes.
ghost use Rattle.std.specs.Prelude.{◌≡◌};
ghost use Rattle.keyed.specs.Rows.{Rising, lookup};
ghost use Rattle.margin.specs.Keys.{instrument_code};
ghost use Rattle.valuation.specs.Values.{in_currency};

use keyed::find;
use margin::Instrument;

#[derive(Clone, Copy)]
pub struct Listing<'a> {
    pub instruments: &'a [Instrument],
    ghost rising: { Rising instrument_code instruments.now },
}

impl<'a> Listing<'a> {
    // The instrument of a code.
    pub(crate) fn at(&self, code: u16) -> Option<Instrument>
        ensures { result ≡ lookup instrument_code self.now.instruments.now code }
    {
        let at = find(self.instruments, code).ok()?;
        Some(self.instruments[at])
    }

    // The instrument of a code, where it is priced in the currency.
    pub(crate) fn priced_in(&self, code: u16, currency: u16) -> Option<Instrument>
        ensures { result ≡ in_currency currency (lookup instrument_code self.now.instruments.now code) }
    {
        self.at(code)
            .filter(|instrument| currency == instrument.currency)
    }
}
