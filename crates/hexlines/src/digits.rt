// One hexadecimal digit, and the two of a byte.
ghost use Rattle.std.specs.Prelude.{◌≡◌, ◌<◌, ◌↔◌, All, IsTrue};
ghost use Rattle.hexlines.specs.Hex.{Digit, byte_digits, digit};

#[tactic(auto, using(crate::proofs::Spelling::digit_ranges))]
pub(crate) fn is_digit(character: u8) -> bool
    ensures { IsTrue result ↔ Digit character }
{
    matches!(character, b'0'..=b'9' | b'a'..=b'f')
}

// The number that a digit stands for; char::to_digit takes upper case too.
fn number_of(character: u8) -> u8
    requires { Digit character }
    ensures small { result < 16 }
    ensures value { character ≡ digit result }
{
    match character {
        b'0'..=b'9' => character - b'0',
        _ => character - b'a' + 10,
    }
}

// char::from_digit would give an Option of a char, to be made a byte again.
fn digit_of(number: u8) -> u8
    requires { number < 16 }
    ensures { result ≡ digit number }
{
    match number {
        0..=9 => b'0' + number,
        _ => b'a' + (number - 10),
    }
}

pub(crate) fn digits_of(byte: u8) -> [u8; 2]
    ensures { result ≡ byte_digits byte }
{
    [digit_of(byte / 16), digit_of(byte % 16)]
}

// The byte that two digits spell.
pub(crate) fn byte_of(digits: [u8; 2]) -> u8
    requires { All Digit digits }
    ensures { byte_digits result ≡ digits }
{
    let [high, low] = digits;
    number_of(high) * 16 + number_of(low)
}
