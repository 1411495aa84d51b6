// Eight bytes at a time: the bits from a place on as the top bits of a word.
ghost use Rattle.huffman.specs.Ahead.{Ahead};

use bits::eight;

// The bits from a place on, at least 57 of them, as the top bits of a word.
pub(crate) fn ahead(s: &[u8], at: usize) -> u64
    ensures { Ahead result s.now at }
{
    eight(s, at) << (at % 8)
}
