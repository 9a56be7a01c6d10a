// Reads a book field by field.
ghost use Rattle.std.specs.Prelude.{◌≡◌, map, length, IfOk, if◌then◌else◌, Some, None, nat_eq};
ghost use Rattle.std.specs.Option.{option_map};
ghost use Rattle.book.specs.Book.{content, parts, cut_off, payload, after, front, fields, content_of, place_of, seen, seen_front};

use crate::faults::{FieldCause, FieldFault};
use crate::fields::{Field, Kind};
use crate::numbers::number;
use crate::tags;
use std::alloc::{AllocError, Global};

// At most so many bytes of a book are read.
pub const MOST_BYTES: usize = 65_536;

// A field of a book, or what is wrong with it, beside its tag.
#[derive(Clone, Copy, Debug, PartialEq, Eq)]
pub struct Item<'a> {
    pub tag: u8,
    pub field: Result<Field<'a>, FieldFault>,
}

// The field of a tag and a payload.
fn field_of(tag: u8, payload: &[u8], place: usize) -> Result<Field<'_>, FieldFault>
    ensures content { content_of result ≡ content tag payload.now place }
    ensures place { place_of result ≡ place }
{
    let (tag, length) = tags::known(tag).ok_or(FieldCause::UnknownTag.at(place))?;
    if payload.len() != usize::from(length) {
        return Err(FieldCause::Length.at(place));
    }
    let kind = Kind::of(tag, payload).ok_or(FieldCause::Length.at(place))?;
    kind.check(place)?;
    Ok(Field { kind, place })
}

// The payload of the field at the front of what is left of a book, and what stands after it; None where the book ends
// inside the field.
fn split_payload(rest: &[u8]) -> Option<(&[u8], &[u8])>
    ensures { option_map parts result ≡ (if cut_off rest.now then None else Some (payload rest.now, after rest.now)) }
{
    let [_, high, low, tail @ ..] = rest else {
        return None;
    };
    let length = number::<u16>(&[*high, *low]);
    tail.split_at_checked(usize::from(length))
}

// The field at the front of what is left of a book, and what stands after it; None at the book's end. `place` is the
// place of its first byte. After refusal 1 nothing is left.
pub fn next_item(rest: &[u8], place: usize) -> Option<(Item<'_>, &[u8])>
    ensures { option_map seen_front result ≡ (if nat_eq (length rest.now) 0 then None else Some (front rest.now place)) }
{
    let tag = *rest.first()?;
    let Some((payload, after)) = split_payload(rest) else {
        let field = Err(FieldCause::Ends.at(place));
        return Some((Item { tag, field }, &[]));
    };
    let field = field_of(tag, payload, place);
    Some((Item { tag, field }, after))
}

// The fields of a book in their order. Bytes past the first 65,536 are not read. A loop over what is left and its place: an
// iterator would be these two as a struct, and `next_item` is there for who reads one field alone.
#[tactic(auto, using(crate::proofs::Books::told))]
pub fn read_book(heap: Global, book: &[u8]) -> Result<Vec<Item<'_>>, AllocError>
    ensures { IfOk result (λ v. map seen v.items ≡ fields book.now) }
{
    let mut items = Vec::new(heap);
    let mut rest = &book[..MOST_BYTES.min(book.len())];
    let mut place = 1;
    while let Some((item, after)) = next_item(rest, place) {
        items.push(item)?;
        place += rest.len() - after.len();
        rest = after;
    }
    Ok(items)
}
