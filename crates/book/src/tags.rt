// The tags, each with the length of its payload.
ghost use Rattle.std.specs.Prelude.{◌≡◌, ◌==◌, IfSome};
ghost use Rattle.std.specs.List.{find};
ghost use Rattle.std.specs.Option.{option_map};
ghost use Rattle.book.specs.Tags.{byte_of, payload_length};

#[derive(Clone, Copy, Debug, PartialEq, Eq)]
pub(crate) enum Tag {
    Currency = 0x01,
    PutInForce = 0x05,
    Open = 0x10,
    PayIn = 0x11,
    PayOut = 0x12,
    Figures = 0x18,
}

const LENGTHS: [(Tag, u16); 6] = [
    (Tag::Currency, 6),
    (Tag::PutInForce, 0),
    (Tag::Open, 2),
    (Tag::PayIn, 12),
    (Tag::PayOut, 12),
    (Tag::Figures, 2),
];

// The first row of a table whose tag is the byte.
fn look_up(table: &[(Tag, u16)], byte: u8) -> Option<(Tag, u16)>
    ensures { result ≡ find (λ row. byte_of row.0 == byte) table.now }
{
    table.iter().copied().find(|(tag, _)| *tag as u8 == byte)
}

// The tag that a byte is, with the length of its payload; None for an unknown tag.
pub(crate) fn known(byte: u8) -> Option<(Tag, u16)>
    ensures tag { IfSome result (λ row. byte_of row.0 ≡ byte) }
    ensures length { option_map (λ row. row.1) result ≡ payload_length byte }
{
    look_up(&LENGTHS, byte)
}
