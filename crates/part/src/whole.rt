// Records read back, as printers do.
ghost use Rattle.std.specs.Prelude.{◌≡◌, ◌<◌};
ghost use Rattle.part.specs.Records.{little_at, is_whole};

use super::values::byte_at;

// Two bytes, the lower first; beyond the end they count as 0.
pub fn little_at(bytes: &[u8], k: u32) -> u32
    ensures { (result ≡ little_at bytes.now k) × (result < 65536) }
{
    let at = k as usize;
    byte_at(bytes, at, 0) + 256 * byte_at(bytes, at + 1, 0)
}

// Whether some bytes begin with a whole record.
pub fn is_whole(bytes: &[u8]) -> bool
    ensures { result ≡ is_whole bytes.now }
{
    let n = little_at(bytes, 0);
    let kind = little_at(bytes, 2);
    (((kind == 1) & (16 <= n)) | ((kind == 2) & (n == 16))) & (n as usize <= bytes.len())
}
