// Lent main data and the bit place at which it is read. Each method is thin and leaves the work to a function of slices and
// numbers; none needs a proof by hand.
#![tactic(auto)]

ghost use Rattle.std.specs.Prelude.{◌≡◌, min};
ghost use Rattle.standard.specs.Bits.{field_at};
ghost use Rattle.bit_reader.specs.Reader.{begun, here, ahead};

#[derive(Clone, Copy)]
pub struct BitReader<'a> {
    pub bytes: &'a [u8],
    pub at: usize,
}

impl<'a> BitReader<'a> {
    // A reader at the first bit.
    pub fn new(bytes: &'a [u8]) -> BitReader<'a>
        ensures { result ≡ begun bytes.entry }
    {
        BitReader { bytes, at: 0 }
    }

    // The bit place at which a reader stands.
    pub fn place(self) -> usize
        ensures { result ≡ self.entry.at }
    {
        self.at
    }

    // The field of n bits that comes next, read as `bits::field` does.
    pub fn peek(self, n: usize) -> u16
        ensures { result ≡ here self.entry n }
    {
        bits::field(self.bytes, self.at, n)
    }

    // The reader n bits on.
    pub fn skip(self, n: usize) -> BitReader<'a>
        ensures { result ≡ ahead self.entry n }
    {
        let at = self.at.saturating_add(n);
        BitReader {
            bytes: self.bytes,
            at,
        }
    }

    // A peek and a skip in one: the field of n bits that comes next, and the reader stands past all of them.
    pub fn read(&mut self, n: usize) -> u16
        ensures { (result ≡ here self.old n) × (self.new ≡ ahead self.old n) }
    {
        let value = self.peek(n);
        *self = self.skip(n);
        value
    }
}

// The field of n bits after the first `gap` bits. Its parameters are plain, so whoever calls it needs no reader.
pub fn field_after(bytes: &[u8], gap: usize, n: usize) -> u16
    ensures { result ≡ field_at bytes.now gap (min n 16) }
{
    BitReader::new(bytes).skip(gap).peek(n)
}
