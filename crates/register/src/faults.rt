// What refuses a call. It holds a sheet's fault whole, and that a field's. Each layer has a type of its own, which names the
// layer below: one type over both would want a trait for number, place and layer, and lose the names.
ghost use Rattle.std.specs.Prelude.{◌≡◌};
ghost use Rattle.sheet.specs.declared.faults.SheetFault.TheVariants.{Field as InField};
ghost use Rattle.register.specs.declared.faults.RegisterFault.TheVariants.{Sheet as InSheet};
ghost use Rattle.register.specs.Faults.{fault_number, fault_place, fault_layer, fault_at, refusal};

use book::FieldFault;
use sheet::SheetFault;

// Each cause has the number of its refusal.
#[derive(Clone, Copy, Debug, PartialEq, Eq)]
pub enum RegisterCause {
    // there is no such portfolio
    NoPortfolio = 14,
    // the portfolio exists
    PortfolioExists = 15,
    // the code is not in the sheet in force
    CodeMissing = 16,
    // there is no free place
    NoPlace = 22,
    // the gross would be over its limit
    Gross = 23,
    // the worst case would be below nought and below what it is
    WorstCase = 24,
}

#[derive(Clone, Copy, Debug, PartialEq, Eq)]
pub enum RegisterFault {
    Sheet(SheetFault),
    // the place is 0 without a book, as the rules number places
    State { cause: RegisterCause, place: usize },
}

// Where a refusal comes from.
#[derive(Clone, Copy, Debug, PartialEq, Eq)]
pub enum Layer {
    OfField,
    OfSheet,
    OfRegister,
}

impl From<SheetFault> for RegisterFault {
    ghost from_gives = { λ f r. r ≡ InSheet f };

    fn from(fault: SheetFault) -> RegisterFault {
        RegisterFault::Sheet(fault)
    }
}

impl From<FieldFault> for RegisterFault {
    ghost from_gives = { λ f r. r ≡ InSheet (InField f) };

    fn from(fault: FieldFault) -> RegisterFault {
        RegisterFault::Sheet(SheetFault::Field(fault))
    }
}

impl From<RegisterCause> for RegisterFault {
    ghost from_gives = { λ c r. r ≡ refusal c };

    fn from(cause: RegisterCause) -> RegisterFault {
        RegisterFault::State { cause, place: 0 }
    }
}

impl RegisterFault {
    pub fn number(&self) -> u8
        ensures { result ≡ fault_number self.now }
    {
        match self {
            RegisterFault::Sheet(fault) => fault.number(),
            RegisterFault::State { cause, .. } => *cause as u8,
        }
    }

    pub fn place(&self) -> usize
        ensures { result ≡ fault_place self.now }
    {
        match self {
            RegisterFault::Sheet(fault) => fault.place(),
            RegisterFault::State { place, .. } => *place,
        }
    }

    pub fn layer(&self) -> Layer
        ensures { result ≡ fault_layer self.now }
    {
        match self {
            RegisterFault::Sheet(SheetFault::Field(_)) => Layer::OfField,
            RegisterFault::Sheet(SheetFault::State { .. }) => Layer::OfSheet,
            RegisterFault::State { .. } => Layer::OfRegister,
        }
    }

    // The same fault, of the field at this place of a book.
    pub fn at(self, place: usize) -> RegisterFault
        ensures { result ≡ fault_at self place }
    {
        match self {
            RegisterFault::Sheet(fault) => RegisterFault::Sheet(fault.at(place)),
            RegisterFault::State { cause, .. } => RegisterFault::State { cause, place },
        }
    }
}
