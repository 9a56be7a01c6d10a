// The number that bytes spell, the highest first.
ghost use Rattle.std.specs.Prelude.{◌≡◌, ℕ, List};
ghost use Rattle.book.specs.Numbers.{number};

// A number of as many bytes as its type has.
pub trait Spelled: Copy {
    type Bytes;

    ghost bytes_of: { Self.Bytes → List ℕ };

    ghost value_of: { Self → ℕ };

    fn spelled(bytes: &Self::Bytes) -> Self
        ensures { value_of result ≡ number (bytes_of bytes.now) };
}

impl Spelled for u16 {
    type Bytes = [u8; 2];

    ghost bytes_of = { λ bytes. bytes };

    ghost value_of = { λ n. n };

    fn spelled(bytes: &[u8; 2]) -> u16 {
        u16::from_be_bytes(*bytes)
    }
}

impl Spelled for u32 {
    type Bytes = [u8; 4];

    ghost bytes_of = { λ bytes. bytes };

    ghost value_of = { λ n. n };

    fn spelled(bytes: &[u8; 4]) -> u32 {
        u32::from_be_bytes(*bytes)
    }
}

impl Spelled for u64 {
    type Bytes = [u8; 8];

    ghost bytes_of = { λ bytes. bytes };

    ghost value_of = { λ n. n };

    fn spelled(bytes: &[u8; 8]) -> u64 {
        u64::from_be_bytes(*bytes)
    }
}

// The type of the result says how many bytes there are.
pub fn number<T: Spelled>(bytes: &T::Bytes) -> T
    ensures { T.value_of result ≡ number (T.bytes_of bytes.now) }
{
    T::spelled(bytes)
}
