// The signed 32-bit number, which is its own row form.
ghost use Rattle.std.specs.Prelude.{◌≡◌};
ghost use Rattle.values.specs.Bytes.{bytes_of_number, number_of_bytes};

use crate::value::Value;

impl Value for i32 {
    type Row = i32;

    ghost rowed = { λ v. v };

    ghost unrowed = { λ r. r };

    fn to_row(self) -> i32 {
        self
    }

    fn from_row(row: i32) -> i32 {
        row
    }
}

// The number that four bytes spell, most significant first. No two rows of bytes spell one number.
pub fn number_of_bytes(bytes: [u8; 4]) -> i32
    ensures value { result ≡ number_of_bytes bytes }
    ensures back { bytes_of_number result ≡ bytes }
{
    i32::from_be_bytes(bytes)
}

// The four bytes that spell a number, most significant first.
pub fn bytes_of_number(value: i32) -> [u8; 4]
    ensures value { result ≡ bytes_of_number value }
    ensures back { number_of_bytes result ≡ value }
{
    value.to_be_bytes()
}
