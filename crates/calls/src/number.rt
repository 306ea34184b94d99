// Numbers in text.
ghost use Rattle.std.specs.Char.{digit_value};
ghost use Rattle.std.specs.Prelude.{◌≡◌, ℕ, ◌+◌, ◌*◌, ◌<◌, List};
ghost use Rattle.calls.specs.Numbers.{Finds, Writes, WritesTwo};

use crate::lines::cut;

// The number with one more digit behind it, if the byte is a digit and 16 bits hold that number.
fn with_digit(number: u16, byte: u8) -> Option<u16>
    ensures { Finds (λ n. (digit_value byte < 10) × (n ≡ number * 10 + digit_value byte) × (n < 65536)) result }
{
    let digit = char::from(byte).to_digit(10)?;
    u16::try_from(u32::from(number) * 10 + digit).ok()
}

// What a text can write.
pub(crate) trait Written: Sized {
    ghost writes: { Self → List ℕ → Type 0 };

    fn read(text: &[u8]) -> Option<Self>
        ensures { Finds (λ x. writes x text.now) result };
}

impl Written for u16 {
    ghost writes = { Writes 65536 };

    fn read(text: &[u8]) -> Option<u16> {
        // Not `parse`: it would take a sign, and want all of the text looked at first.
        text.first()?;
        let mut number = 0;
        for byte in text {
            number = with_digit(number, *byte)?;
        }
        Some(number)
    }
}

impl Written for u8 {
    ghost writes = { Writes 256 };

    fn read(text: &[u8]) -> Option<u8> {
        u8::try_from(u16::read(text)?).ok()
    }
}

// Two numbers with a blank between them.
impl Written for (u8, u8) {
    ghost writes = { λ x. WritesTwo 256 x.0 x.1 };

    fn read(text: &[u8]) -> Option<(u8, u8)> {
        let (front, rest) = cut(text, b' ')?;
        Some((u8::read(front)?, u8::read(rest)?))
    }
}
