// What stands in a frame as N bytes, most significant first.
ghost use Rattle.std.specs.Prelude.{◌≡◌, ℕ, ◌^◌, ◌<◌, List, [], ◌∷◌, length, refl, slice_index};
ghost use Rattle.std.specs.Int.{w16, w32, from_be_bytes, to_be_bytes};
ghost use Rattle.std.proofs.Common.{rules};
ghost use Rattle.std.proofs.lemmas.Nat.{be_bytes_2, be_bytes_4};
ghost use Rattle.hexlines.specs.Hex.{Bytes};
ghost use Rattle.values.specs.Bytes.{number_of_bytes};
ghost use Rattle.frames.specs.Fields.{access_in, one_byte};

use calls::Access;
use protocols::Mode;
use values::number_of_bytes;

// The kinds of field are those below: the trait is not handed out, so no other can be read.
pub trait Field<const N: usize>: Copy {
    // the value that bytes spell
    ghost value_of: { List ℕ → Self };

    fn from_bytes(bytes: &[u8; N]) -> Self
        ensures { result ≡ value_of bytes.entry.now };

    // as_chunks asks the one, and that arrays of N bytes exist the other
    ghost sized: { (0 < N) × (N < 2 ^ 63) };
}

// A field that every N bytes spell, each in its own way.
pub trait Unsigned<const N: usize>: Field<N> {
    // the bytes that spell a number
    ghost bytes_of: { Self → List ℕ };

    ghost spelled: { (bytes : List ℕ) → length bytes ≡ N → Bytes bytes → bytes_of (Self.value_of bytes) ≡ bytes };
}

impl Field<1> for u8 {
    ghost value_of = { λ bytes. slice_index bytes 0 };

    ghost sized = { Prim.search rules };

    fn from_bytes(bytes: &[u8; 1]) -> u8 {
        bytes[0]
    }
}

impl Unsigned<1> for u8 {
    ghost bytes_of = { λ n. n ∷ [] };

    ghost spelled = { one_byte };
}

impl Field<2> for u16 {
    ghost value_of = { from_be_bytes w16 };

    ghost sized = { Prim.search rules };

    fn from_bytes(bytes: &[u8; 2]) -> u16 {
        u16::from_be_bytes(*bytes)
    }
}

impl Unsigned<2> for u16 {
    ghost bytes_of = { to_be_bytes w16 };

    ghost spelled = { λ bytes two small. be_bytes_2 bytes _ two small refl };
}

impl Field<4> for u32 {
    ghost value_of = { from_be_bytes w32 };

    ghost sized = { Prim.search rules };

    fn from_bytes(bytes: &[u8; 4]) -> u32 {
        u32::from_be_bytes(*bytes)
    }
}

impl Unsigned<4> for u32 {
    ghost bytes_of = { to_be_bytes w32 };

    ghost spelled = { λ bytes four small. be_bytes_4 bytes _ four small refl };
}

impl Field<4> for i32 {
    ghost value_of = { number_of_bytes };

    ghost sized = { Prim.search rules };

    fn from_bytes(bytes: &[u8; 4]) -> i32 {
        number_of_bytes(*bytes)
    }
}

impl Field<2> for Access {
    ghost value_of = { access_in };

    ghost sized = { Prim.search rules };

    fn from_bytes(bytes: &[u8; 2]) -> Access {
        let [code, item] = *bytes;
        let mode = if code == 0 { Mode::Read } else { Mode::Write };
        Access { mode, item }
    }
}
