// What the fields of a record are given by its version and shape, and not by its own bits.
// The two region counts keep a function each, since both are public and stay.
ghost use Rattle.std.specs.Prelude.{◌≡◌};
ghost use Rattle.standard.specs.Record.{compress_width, region0_of, region1_of};

use standard::Shape;

// The width of scalefac_compress.
pub fn compress_width(mpeg1: bool) -> usize
    ensures { result ≡ compress_width mpeg1 }
{
    if mpeg1 {
        return 4;
    }
    9
}

// The first of the region counts that a switched block is given.
pub fn first_region(shape: Shape) -> u8
    ensures { result ≡ region0_of shape }
{
    match shape {
        Shape::AllShort => 8,
        Shape::AllLong | Shape::LongThenShort => 7,
    }
}

// The second of them.
pub fn second_region(shape: Shape) -> u8
    ensures { result ≡ region1_of shape }
{
    match shape {
        Shape::AllShort => 12,
        Shape::AllLong | Shape::LongThenShort => 13,
    }
}
