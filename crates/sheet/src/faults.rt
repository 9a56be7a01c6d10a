// What refuses an entry, a closing or a putting in force. It holds a field's fault whole, and is a type of its own: its variants
// name the layer below.
ghost use Rattle.std.specs.Prelude.{◌≡◌};
ghost use Rattle.sheet.specs.declared.faults.SheetFault.TheVariants.{Field as InField};
ghost use Rattle.sheet.specs.Faults.{refusal, of_table, sheet_number, sheet_place, sheet_at};

use book::FieldFault;
use keyed::Refusal;

// The causes, with their numbers.
#[derive(Clone, Copy, Debug, PartialEq, Eq)]
pub enum SheetCause {
    // the code is in the draft already
    Entered = 10,
    // the draft is full
    Full = 11,
    // no rouble at 10,000, or a code other than the rouble without pieces
    Incomplete = 12,
    // the currencies are not the register's
    Unfit = 13,
    // no sheet is in force
    NotInForce = 27,
}

#[derive(Clone, Copy, Debug, PartialEq, Eq)]
pub enum SheetFault {
    Field(FieldFault),
    // the place is 0 without a book, as the rules number places
    State { cause: SheetCause, place: usize },
}

impl From<FieldFault> for SheetFault {
    ghost from_gives = { λ f r. r ≡ InField f };

    fn from(fault: FieldFault) -> SheetFault {
        SheetFault::Field(fault)
    }
}

// The fault of a call without a book.
impl From<SheetCause> for SheetFault {
    ghost from_gives = { λ c r. r ≡ refusal c };

    fn from(cause: SheetCause) -> SheetFault {
        SheetFault::State { cause, place: 0 }
    }
}

// What a table's refusal of an entry means for the sheet.
impl From<Refusal> for SheetFault {
    ghost from_gives = { λ t r. r ≡ of_table t };

    fn from(refusal: Refusal) -> SheetFault {
        match refusal {
            Refusal::Taken => SheetCause::Entered.into(),
            Refusal::Full => SheetCause::Full.into(),
        }
    }
}

impl SheetFault {
    pub fn number(&self) -> u8
        ensures { result ≡ sheet_number self.now }
    {
        match self {
            SheetFault::Field(fault) => fault.number(),
            SheetFault::State { cause, .. } => *cause as u8,
        }
    }

    pub fn place(&self) -> usize
        ensures { result ≡ sheet_place self.now }
    {
        match self {
            SheetFault::Field(fault) => fault.place,
            SheetFault::State { place, .. } => *place,
        }
    }

    // The same fault, of the field at this place of a book.
    pub fn at(self, place: usize) -> SheetFault
        ensures { result ≡ sheet_at self place }
    {
        match self {
            SheetFault::Field(fault) => SheetFault::Field(FieldFault { place, ..fault }),
            SheetFault::State { cause, .. } => SheetFault::State { cause, place },
        }
    }
}
