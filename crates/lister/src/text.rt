// The text of a listing as far as it has come, in ASCII: each method puts its own behind it.
ghost use Rattle.std.specs.Prelude.{◌≡◌, ◌+◌, ◌*◌, ◌<◌, ◌++◌, length, map};
ghost use Rattle.lister.specs.Lines.{numeral, numbers, hex_digit, hex_bytes, line_of, characters_in_hex};
ghost use Rattle.lister.specs.Code.{plus_middle, HasRoom, Grown};

use itoa::Buffer;

// A number of two bytes, without or with a sign: five digits at most.
#[derive(Clone, Copy)]
pub enum Number {
    Plain(u16),
    Signed(i16),
}

// It lies at the start of a buffer that is lent, so that nothing is copied. `Code.text` is the text.
#[derive(Drop)]
pub struct Listing<'a> {
    out: &'a mut [u8],
    len: usize,
}

impl<'a> Listing<'a> {
    // No text yet.
    pub fn new(out: &'a mut [u8]) -> Listing<'a>
        ensures empty { result.len ≡ 0 }
        ensures room { result.out.now ≡ out.old }
        ensures same_reference { result.out.ghost_name ≡ out.entry.ghost_name }
    {
        Listing { out, len: 0 }
    }

    // How long the text is.
    pub fn len(&self) -> usize
        ensures { result ≡ self.now.len }
    {
        self.len
    }

    // Some characters as they are.
    fn put(&mut self, word: &[u8])
        requires { HasRoom self.old (length word.now) }
        ensures { Grown self.old self.new word.now }
    {
        let to = self.len + word.len();
        self.out[self.len..to].copy_from_slice(word);
        self.len = to;
    }

    // A number, with a minus where it is negative.
    fn number(&mut self, n: Number)
        requires { HasRoom self.old 6 }
        ensures { Grown self.old self.new (numeral (plus_middle n)) }
    {
        let mut digits = Buffer::new();
        match n {
            Number::Plain(n) => self.put(digits.format(n).as_bytes()),
            Number::Signed(n) => self.put(digits.format(n).as_bytes()),
        }
    }

    // Numbers, a space before each.
    fn numbers(&mut self, ns: &[Number])
        requires { HasRoom self.old (7 * length ns.now) }
        ensures { Grown self.old self.new (numbers (map plus_middle ns.now)) }
    {
        for n in ns {
            self.put(b" ");
            self.number(*n);
        }
    }

    // Bytes in capital hexadecimal.
    fn hex(&mut self, bytes: &[u8])
        requires { HasRoom self.old (2 * length bytes.now) }
        ensures { Grown self.old self.new (hex_bytes bytes.now) }
    {
        let to = self.len + 2 * bytes.len();
        write_hex(&mut self.out[self.len..to], bytes);
        self.len = to;
    }

    // A word and numbers.
    pub fn fields(&mut self, word: &[u8], ns: &[Number])
        requires { HasRoom self.old (length word.now + 7 * length ns.now) }
        ensures { Grown self.old self.new (word.now ++ numbers (map plus_middle ns.now)) }
    {
        self.put(word);
        self.numbers(ns);
    }

    // A word and numbers, and the end of the line.
    pub fn line(&mut self, word: &[u8], ns: &[Number])
        requires { HasRoom self.old (length word.now + 7 * length ns.now + 1) }
        ensures { Grown self.old self.new (line_of word.now (map plus_middle ns.now)) }
    {
        self.fields(word, ns);
        self.put(b"\n");
    }

    // Characters behind a space, in hexadecimal, and the end of the line.
    pub fn characters(&mut self, bytes: &[u8])
        requires { HasRoom self.old (2 * length bytes.now + 2) }
        ensures { Grown self.old self.new (characters_in_hex bytes.now) }
    {
        self.put(b" ");
        self.hex(bytes);
        self.put(b"\n");
    }
}

// Bytes in capital hexadecimal, into a place of just that length.
fn write_hex(out: &mut [u8], bytes: &[u8])
    requires { length out.old ≡ 2 * length bytes.now }
    ensures { out.new ≡ hex_bytes bytes.now }
{
    // by index, since each byte has two places
    for i in 0..bytes.len() {
        let b = bytes[i];
        out[2 * i] = hex_digit(b / 16);
        out[2 * i + 1] = hex_digit(b % 16);
    }
}

// The digit of a number below 16. `write!` ensures nothing of success, so with `{:02X}` `list` could fail; the kit's hex has capitals on the heap alone.
fn hex_digit(n: u8) -> u8
    requires { n < 16 }
    ensures { result ≡ hex_digit n }
{
    if n < 10 { b'0' + n } else { b'A' + (n - 10) }
}
