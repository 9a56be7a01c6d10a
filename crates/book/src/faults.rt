// What is wrong with a field, and its place: its first byte in the book, from 1, or 0 without a book. The rules of a book give
// each refusal a place as they give it a number, so 0 is one of them and no Option.
ghost use Rattle.std.specs.Prelude.{◌≡◌};
ghost use Rattle.book.specs.Faults.{field_number, fault};

#[derive(Clone, Copy, Debug, PartialEq, Eq)]
pub enum FieldCause {
    // the book ends inside the field
    Ends = 1,
    // no field has the tag
    UnknownTag = 2,
    // the payload's length is not the tag's
    Length = 3,
    // a number is outside its range
    Range = 4,
}

#[derive(Clone, Copy, Debug, PartialEq, Eq)]
pub struct FieldFault {
    pub cause: FieldCause,
    pub place: usize,
}

impl FieldCause {
    pub(crate) fn at(self, place: usize) -> FieldFault
        ensures { result ≡ fault self place }
    {
        FieldFault { cause: self, place }
    }
}

impl FieldFault {
    pub fn number(&self) -> u8
        ensures { result ≡ field_number self.now }
    {
        self.cause as u8
    }
}
