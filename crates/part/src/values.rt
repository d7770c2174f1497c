// Parameters: bytes, and numbers of two bytes.
ghost use Rattle.std.specs.Prelude.{◌≡◌, ◌≤◌, ◌<◌, length};
ghost use Rattle.part.specs.Numbers.{byte, word};
ghost use Rattle.part.specs.Presenting.{default};

// A byte, where a missing one counts as `absent`.
pub fn byte_at(p: &[u8], at: usize, absent: u8) -> u32
    ensures { (result ≡ byte absent p.now at) × (result < 256) }
{
    u32::from(p.get(at).copied().unwrap_or(absent))
}

// Two bytes, the higher first. One test for both, so that they are read as one.
pub fn word_at(p: &[u8], at: usize, absent: u8) -> u32
    requires { at < 256 }
    ensures { (result ≡ word absent p.now at) × (result < 65536) }
{
    match p.get(at..at + 2) {
        Some(both) => word_of(both),
        None => byte_at(p, at, absent) * 256 + u32::from(absent),
    }
}

// The two bytes that parameters begin with, where they are known to be there.
pub fn word_of(p: &[u8]) -> u32
    requires { 2 ≤ length p.now }
    ensures { (result ≡ word 0 p.now 0) × (result < 65536) }
{
    u32::from(u16::from_be_bytes([p[0], p[1]]))
}

// All ones mean the other value.
pub fn or_default(all: u32, v: u32, other: u32) -> u32
    ensures { result ≡ default all v other }
{
    if v == all { other } else { v }
}
