//! Hexadecimal numbers of a fixed length.

ghost use Rattle.std.specs.Prelude.{◌≡◌, ◌<◌, Some};
ghost use Rattle.script_text.specs.Digits.{digit, two_digits, four_digits, eight_digits, hex_text};

use std::fmt;

fn digit_of(value: u8) -> char
    requires { value < 16 }
    ensures { result ≡ digit value }
{
    if value < 10 {
        char::from(b'0' + value)
    } else {
        char::from(b'A' + (value - 10))
    }
}

/// A byte in two digits.
#[derive(Clone, Copy)]
struct TwoDigits(u8);

impl fmt::Display for TwoDigits {
    ghost output = { λ x. Some (two_digits x.0) };

    fn fmt<W: fmt::Write>(&self, f: &mut fmt::Formatter<W>) -> fmt::Result {
        let high = digit_of(self.0 / 16);
        let low = digit_of(self.0 % 16);
        write!(f, "{high}{low}")
    }
}

/// The bytes of a number, the high byte first: 0x and two digits for each.
// By hand; whether the library's `{:02X}` of a byte proves in its place was not tried.
#[derive(Clone, Copy)]
pub(crate) struct Hex<const N: usize>([u8; N]);

impl From<u16> for Hex<2> {
    ghost from_gives = { λ n x. hex_text x.0 ≡ four_digits n };

    fn from(number: u16) -> Self {
        Hex(number.to_be_bytes())
    }
}

impl From<u32> for Hex<4> {
    ghost from_gives = { λ w x. hex_text x.0 ≡ eight_digits w };

    fn from(word: u32) -> Self {
        Hex(word.to_be_bytes())
    }
}

impl<const N: usize> fmt::Display for Hex<N> {
    ghost output = { λ x. Some (hex_text x.0) };

    fn fmt<W: fmt::Write>(&self, f: &mut fmt::Formatter<W>) -> fmt::Result {
        f.write_str("0x")?;
        for byte in &self.0 {
            f.write(TwoDigits(*byte))?;
        }
        Ok(())
    }
}
