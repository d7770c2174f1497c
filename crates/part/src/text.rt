// Characters along the line: where they leave I, or the first that is refused.
ghost use Rattle.std.specs.Prelude.{◌≡◌, true, ◌+◌, ◌*◌, ◌≤◌, ◌<◌, IfOk, IfSome, length, get_or};
ghost use Rattle.part.specs.Text.{cycle};
ghost use Rattle.part.specs.Code.{valued, width_in, stepped, walked, row_widths, spaces_in, widths_of, AtLeast, Fixed, AtOnce};

use super::faults::Fault;
use super::numbers::{LAST, ORIGIN};

// The widths of a font. It stays apart from the characters, and their length a clause: of a row in a struct's field no proof knows that widths fit two bytes (tried), and a struct for the length alone makes each clause longer.
pub type Row = [u16; 256];

// What does not change within an element: the width of X'40', whether characters are shown, the end of the sheet along I, the adjustment.
#[derive(Clone, Copy, PartialEq, Eq, Debug)]
pub struct Line {
    pub space: u32,
    pub shown: bool,
    pub limit: usize,
    pub plus: u32,
    pub minus: u32,
}

// A character's width in the font's row.
fn own_width(row: &Row, c: u8) -> usize
    ensures { (result ≡ get_or row.now c 0) × (result < 65536) }
{
    usize::from(row[usize::from(c)])
}

// The width of a character: of X'40' the line's, else that in the font's row. A product instead of a branch, which spaces would mislead.
fn width(row: &Row, space: u32, c: u8) -> usize
    ensures { (result ≡ width_in row.now space c) × (result < 4294967296) }
{
    let n = usize::from(c == 0x40);
    own_width(row, c) * (1 - n) + space as usize * n
}

// Whether a row has one width for all, as a font of fixed pitch has.
fn is_fixed(row: &Row) -> bool
    ensures { result ≡ true → Fixed row.now }
{
    let first = row[0];
    if row[0x40] != first {
        return false;
    }
    row.iter().fold(true, |same, w| same & (*w == first))
}

// The widths of some characters together, in the font's row alone, one after the other.
fn row_sum(t: &[u8], row: &Row) -> usize
    requires { length t.now < 65536 }
    ensures { (result ≡ row_widths row.now t.now) × (result ≤ 65536 * length t.now) }
{
    t.iter().map(|c| own_width(row, *c)).sum()
}

// The same, eight at a time, which real parts take 4 to 8 % less time by.
fn row_eights(t: &[u8], row: &Row) -> usize
    requires { length t.now < 65536 }
    ensures { (result ≡ row_widths row.now t.now) × (result ≤ 65536 * length t.now) }
{
    let mut sum: usize = 0;
    let (eights, rest) = t.as_chunks::<8>();
    for e in eights {
        let low = own_width(row, e[0])
            + own_width(row, e[1])
            + (own_width(row, e[2]) + own_width(row, e[3]));
        let high = own_width(row, e[4])
            + own_width(row, e[5])
            + (own_width(row, e[6]) + own_width(row, e[7]));
        sum += low + high;
    }
    sum + row_sum(rest, row)
}

// The same. Only where text is long is it worth a look whether the row has one width, which makes it a product.
#[inline(always)]
fn row_total(t: &[u8], row: &Row) -> usize
    requires { length t.now < 65536 }
    ensures { (result ≡ row_widths row.now t.now) × (result ≤ 65536 * length t.now) }
{
    if 64 <= t.len() {
        if is_fixed(row) {
            return t.len() * own_width(row, 0);
        }
    }
    row_eights(t, row)
}

// How many of some characters are X'40'.
fn spaces(t: &[u8]) -> usize
    requires { length t.now < 65536 }
    ensures { (result ≡ spaces_in t.now) × (result ≤ length t.now) }
{
    let mut n: u32 = 0;
    for c in t {
        n += u32::from(*c == 0x40);
    }
    n as usize
}

// The widths of some characters together, from those in the row alone. X'40' is counted apart, so that no character is tested where it has the row's width.
fn spaced(t: &[u8], row: &Row, sum: usize, space: u32) -> usize
    requires { (length t.now < 65536) × (sum ≡ row_widths row.now t.now) × (sum ≤ 65536 * length t.now) }
    ensures { (result ≡ widths_of row.now space t.now) × (result ≤ 4294967296 * length t.now) }
{
    let own = row[0x40];
    if space == u32::from(own) {
        return sum;
    }
    let n = spaces(t);
    sum + n * space as usize - n * usize::from(own)
}

// The same, one after the other: for what is left of a round. Beside `row_sum`, as the width handed in as a closure is no plainer than a chain.
fn few_total(t: &[u8], row: &Row, space: u32) -> usize
    requires { length t.now < 65536 }
    ensures { (result ≡ widths_of row.now space t.now) × (result ≤ 4294967296 * length t.now) }
{
    t.iter().map(|c| width(row, space, *c)).sum()
}

// The widths of `count` characters of a text that begins again at its end, and that has `whole` in all: whole rounds, and a last part of one.
fn cycle_total(t: &[u8], count: usize, whole: usize, row: &Row, space: u32) -> usize
    requires sizes { (0 < length t.now) × (length t.now < 65536) × (count < 65536) }
    requires counted { (whole ≡ widths_of row.now space t.now) × (whole ≤ 4294967296 * length t.now) }
    ensures { (result ≡ widths_of row.now space (cycle t.now 0 count)) × (result ≤ 4294967296 * count) }
{
    let n = t.len();
    if count == n {
        return whole;
    }
    count / n * whole + few_total(&t[..count % n], row, space)
}

// One character from a place on, 27 before 28: where it leaves I.
#[tactic(auto, unfolding(crate::specs::Presenting::moved))]
fn step(i: u32, width: usize, l: Line) -> Result<u32, Fault>
    requires { width < 4294967296 }
    ensures { valued result ≡ stepped l i width }
{
    let end = i as usize + width;
    if l.shown & ((i < ORIGIN) | (l.limit < end)) {
        return Err(Fault::OffSheet);
    }
    let to = end + l.plus as usize;
    let minus = l.minus as usize;
    if to < minus {
        return Err(Fault::OutOfRange);
    }
    let next = to - minus;
    if LAST < next {
        return Err(Fault::OutOfRange);
    }
    Ok(next as u32)
}

// Character by character.
fn walk(t: &[u8], row: &Row, l: Line, start: u32) -> Result<u32, Fault>
    ensures { valued result ≡ walked row.now l start t.now }
{
    let mut i = start;
    for c in t {
        i = step(i, width(row, l.space, *c), l)?;
    }
    Ok(i)
}

// The same for `count` characters of a text that begins again at its end, a round at a time.
fn walk_cycle(t: &[u8], count: usize, row: &Row, l: Line, start: u32) -> Result<u32, Fault>
    requires { 0 < length t.now }
    ensures { valued result ≡ walked row.now l start (cycle t.now 0 count) }
{
    let mut i = start;
    for _ in 0..count / t.len() {
        i = walk(t, row, l, i)?;
    }
    walk(&t[..count % t.len()], row, l, i)
}

// The least width of some characters, or of X'40' in the line if that is less; of a row with one width, the lesser of that and X'40'.
fn narrowest(t: &[u8], row: &Row, space: u32) -> usize
    ensures { AtLeast (width_in row.now space) result t.now }
{
    if 64 <= t.len() {
        if is_fixed(row) {
            return own_width(row, 0).min(space as usize);
        }
    }
    t.iter()
        .map(|c| own_width(row, *c))
        .fold(space as usize, |least, w| w.min(least))
}

// A place that text reaches, where that alone decides for all of its characters: the last one's own end lies before the adjustment.
fn at_once(end: usize, l: Line, start: u32) -> Option<u32>
    ensures { IfSome result (λ i. (i ≡ end) × AtOnce l start end) }
{
    if LAST < end {
        return None;
    }
    let own_end = (end + l.minus as usize).saturating_sub(l.plus as usize);
    let inside = (ORIGIN <= start) & (own_end <= l.limit);
    if !l.shown | inside {
        Some(end as u32)
    } else {
        None
    }
}

// A text from which an adjustment is subtracted. Where no character is narrower than that, I does not fall here either.
fn present_back(t: &[u8], whole: usize, row: &Row, l: Line, start: u32) -> Result<u32, Fault>
    requires short { length t.now < 65536 }
    requires counted { (whole ≡ widths_of row.now l.space t.now) × (whole ≤ 4294967296 * length t.now) }
    ensures { valued result ≡ walked row.now l start t.now }
{
    if l.minus as usize <= narrowest(t, row, l.space) {
        let n = t.len();
        let far = start as usize + whole + n * l.plus as usize;
        if let Some(i) = at_once(far - n * l.minus as usize, l, start) {
            return Ok(i);
        }
    }
    walk(t, row, l, start)
}

// Where `count` characters of a text leave I. Where the adjustment is not taken off, I does not fall, and the last character's end decides for all.
pub fn present(t: &[u8], count: usize, row: &Row, l: Line, start: u32) -> Result<u32, Fault>
    requires { (0 < length t.now) × (length t.now < 65536) × (count < 65536) }
    ensures { valued result ≡ walked row.now l start (cycle t.now 0 count) }
{
    let whole = spaced(t, row, row_total(t, row), l.space);
    if l.minus == 0 {
        let end = start as usize
            + cycle_total(t, count, whole, row, l.space)
            + count * l.plus as usize;
        if let Some(i) = at_once(end, l, start) {
            return Ok(i);
        }
    }
    if count == t.len() {
        return present_back(t, whole, row, l, start);
    }
    walk_cycle(t, count, row, l, start)
}

// Where plain text leaves I.
pub fn plain_end(t: &[u8], row: &Row, space: u32, start: u32, plus: u32) -> usize
    requires { length t.now < 65536 }
    ensures { result ≡ start + widths_of row.now space t.now + length t.now * plus }
{
    start as usize + spaced(t, row, row_total(t, row), space) + t.len() * plus as usize
}
