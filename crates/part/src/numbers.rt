// Numbers that stand for something, the same number in more bits, the lesser of two. Nothing is asked of a caller.
ghost use Rattle.std.specs.Prelude.{◌≡◌, ◌⊎◌, ◌≤◌, ◌<◌};

// A position is kept as its number plus this.
pub const ORIGIN: u32 = 32768;

// The greatest kept position, 32,767.
pub const LAST: usize = 65535;

// All ones in two bytes.
pub const ONES: u32 = 0xFFFF;

// A byte as a number of 32 bits.
pub fn wide_byte(x: u8) -> u32
    ensures { (result ≡ x) × (result < 256) }
{
    u32::from(x)
}

// The same number, for sums that cannot wrap.
pub fn wide(n: u32) -> usize
    ensures { (result ≡ n) × (result < 4294967296) }
{
    n as usize
}

// Of two numbers.
pub fn lesser(a: usize, b: usize) -> usize
    ensures { (result ≤ a) × ((result ≤ b) × ((result ≡ a) ⊎ (result ≡ b))) }
{
    a.min(b)
}
