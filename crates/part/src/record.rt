// Records: their first sixteen bytes, and characters stored behind them.
ghost use Rattle.std.specs.Prelude.{◌≡◌, ◌++◌, ◌+◌, ◌≤◌, ◌<◌, length, take, drop};
ghost use Rattle.std.proofs.lemmas.List.Edits.{sets};
ghost use Rattle.part.specs.Numbers.{little};
ghost use Rattle.part.specs.Text.{cycle};
ghost use Rattle.part.specs.Code.{head_bytes};

// The eight numbers that either kind of record begins with: numbers all, the kind too, as printers read them.
#[derive(Clone, Copy, PartialEq, Eq, Debug)]
pub struct Head {
    pub len: u32,
    pub kind: u32,
    pub i: u32,
    pub b: u32,
    pub first: u32,
    pub second: u32,
    pub third: u32,
    pub fourth: u32,
}

// The lower two bytes of each of four numbers, the lower first: as one number, of which the back end makes one store.
fn four_of(a: u32, b: u32, c: u32, d: u32) -> [u8; 8]
    ensures { result ≡ little a ++ little b ++ little c ++ little d }
{
    let low = u64::from(a & 0xFFFF) | u64::from(b & 0xFFFF) << 16;
    let high = u64::from(c & 0xFFFF) | u64::from(d & 0xFFFF) << 16;
    (low | high << 32).to_le_bytes()
}

// Stores a record's head.
#[tactic(auto, using(crate::proofs::Stores::put, crate::proofs::Stores::more))]
pub fn put_head(area: &mut [u8], at: usize, h: Head)
    requires { at + 16 ≤ length area.old }
    ensures { area.new ≡ sets area.old at (head_bytes h) }
{
    area[at..at + 8].copy_from_slice(&four_of(h.len, h.kind, h.i, h.b));
    area[at + 8..at + 16].copy_from_slice(&four_of(h.first, h.second, h.third, h.fourth));
}

// Stores `N` of some bytes, from number `k` on: a length that is known makes a few moves of the processor, and no call of the C library. All are read before the
// first is stored, so that the back end need not ask whether they lie apart.
#[tactic(auto, using(crate::proofs::Stores::put))]
fn store_some<const N: usize>(area: &mut [u8], at: usize, bytes: &[u8], k: usize)
    requires { (at + N ≤ length area.old) × (k + N ≤ length bytes.now) }
    ensures { area.new ≡ sets area.old at (take N (drop k bytes.now)) }
{
    let mut some = [0u8; N];
    some.copy_from_slice(&bytes[k..k + N]);
    area[at..at + N].copy_from_slice(&some);
}

// Stores bytes by sixteens, and the last eight once more where they do not end a block, so that none goes by itself but of fewer than eight.
// Area and place go together, and stay two: the area is lent whole, and slices of it would be cut at each call.
pub fn store(area: &mut [u8], at: usize, bytes: &[u8])
    requires { at + length bytes.now ≤ length area.old }
    ensures { area.new ≡ sets area.old at bytes.now }
{
    let n = bytes.len();
    if n < 8 {
        for k in 0..n {
            area[at + k] = bytes[k];
        }
        return;
    }
    for i in 0..n / 16 {
        store_some::<16>(area, at + 16 * i, bytes, 16 * i);
    }
    let k = 16 * (n / 16);
    if 8 < n - k {
        store_some::<8>(area, at + k, bytes, k);
    }
    store_some::<8>(area, at + (n - 8), bytes, n - 8);
}

// Stores `count` characters, more than one round of a text that begins again at its end: one round, and then what is there once more, as long as it lasts.
fn store_rounds(area: &mut [u8], at: usize, text: &[u8], count: usize)
    requires { (at + count ≤ length area.old) × (0 < length text.now) × (length text.now ≤ count) }
    ensures { area.new ≡ sets area.old at (cycle text.now 0 count) }
{
    store(area, at, text);
    let mut done = text.len();
    // each turn doubles what is there, which no iterator of std does
    while done < count {
        let more = done.min(count - done);
        area.copy_within(at..at + more, at + done);
        done += more;
    }
}

// Stores the characters that a text presents.
pub fn draw(area: &mut [u8], at: usize, text: &[u8], count: usize)
    requires { (at + count ≤ length area.old) × (0 < length text.now) }
    ensures { area.new ≡ sets area.old at (cycle text.now 0 count) }
{
    if count <= text.len() {
        store(area, at, &text[..count]);
        return;
    }
    store_rounds(area, at, text, count);
}
