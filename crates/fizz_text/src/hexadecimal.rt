ghost use Rattle.std.specs.Prelude.{◌≡◌, ◌≤◌, ◌<◌, length};
ghost use Rattle.std.specs.Char.{digit_char};
ghost use Rattle.fizz_text.specs.Hexadecimal.{IsHexadecimal, hexadecimal};

use std::marker::Model;

/// The most digits that a `u32` has in hexadecimal.
const MOST_DIGITS: usize = 8;

/// A number in lower-case hexadecimal: one to eight ASCII bytes.
#[derive(Debug, Drop)]
pub struct HexText {
    digits: [u8; MOST_DIGITS],
    start: usize,
}

impl Model for HexText {
    ghost use Rattle.std.specs.Prelude.{List, ℕ, drop};

    ghost Value = { List ℕ };

    ghost view = { λ h. drop h.start h.digits };

    ghost use Rattle.std.specs.Prelude.{◌≤◌};

    ghost invariant = { λ h. h.start ≤ 8 };
}

impl HexText {
    pub fn as_bytes(&self) -> &[u8]
        ensures value { result.now ≡ self.now }
        ensures short { length result.now ≤ 8 }
    {
        &self.digits[self.start..]
    }
}

/// The number in lower-case hexadecimal without leading zeros, `0` for 0.
pub fn hex_of(n: u32) -> HexText
    ensures value { result ≡ hexadecimal n }
    ensures numeral { IsHexadecimal result n }
{
    let mut digits = [b'0'; MOST_DIGITS];
    if n == 0 {
        return HexText {
            digits,
            start: MOST_DIGITS - 1,
        };
    }
    let mut start = MOST_DIGITS;
    let mut rest = n;
    while rest > 0 {
        start -= 1;
        digits[start] = digit_of(rest % 16);
        rest /= 16;
    }
    HexText { digits, start }
}

/// The digit of a value.
fn digit_of(value: u32) -> u8
    requires { value < 16 }
    ensures { result ≡ digit_char value }
{
    if value < 10 {
        b'0' + value as u8
    } else {
        b'a' + (value - 10) as u8
    }
}
