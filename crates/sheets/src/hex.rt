// Bytes in capital hexadecimal, read and written.
ghost use Rattle.std.specs.Prelude.{◌≡◌, ◌+◌, ◌-◌, ◌/◌, ◌<◌, min, length, take};
ghost use Rattle.arrayvec.specs.ArrayVec.{array_vec_len};
ghost use Rattle.sheets.specs.Hex.{digit_of, Spelled};

use arrayvec::ArrayVec;
use std::fmt;

// The number of a digit; of any other character 0. The kit's `hex` and `char::to_digit` read small letters too, which `digit_of` doesn't.
#[tactic(auto, unfolding(crate::specs::Hex::digit_of))]
fn digit_value(c: u8) -> u8
    ensures { (result ≡ digit_of c) × (result < 16) }
{
    match c {
        b'0'..=b'9' => c - b'0',
        b'A'..=b'F' => c - b'A' + 10,
        _ => 0,
    }
}

// Adds the bytes of a text, as many as there is room for.
pub fn decode<const CAP: usize>(hex: &[u8], out: &mut ArrayVec<u8, CAP>)
    ensures kept { take (array_vec_len out.old) out.new.items ≡ out.old.items }
    ensures end { array_vec_len out.new ≡ array_vec_len out.old + min (length hex.now / 2) (CAP - array_vec_len out.old) }
    ensures spelled { Spelled hex.now (array_vec_len out.old) (array_vec_len out.new - array_vec_len out.old) out.new.items }
{
    let (pairs, _) = hex.as_chunks::<2>();
    for [high, low] in pairs {
        if out.is_full() {
            return;
        }
        out.push(digit_value(*high) * 16 + digit_value(*low));
    }
}

// Bytes as they are printed.
#[derive(Clone, Copy)]
pub struct Hex<'a>(pub &'a [u8]);

impl fmt::Display for Hex<'_> {
    fn fmt<W: fmt::Write>(&self, f: &mut fmt::Formatter<W>) -> fmt::Result {
        for byte in self.0 {
            write!(f, "{byte:02X}")?;
        }
        Ok(())
    }
}
