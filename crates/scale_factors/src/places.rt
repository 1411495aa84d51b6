// Where a slot's factors stand, of those that a plan reads and among the 22 and 39 that are told.
ghost use Rattle.std.specs.Prelude.{◌≡◌, ◌++◌, ◌+◌, ◌-◌, ◌≤◌, take, drop, replicate};
ghost use Rattle.standard.specs.Factors.{long_count, short_count, short_from, bands_of};
ghost use Rattle.scale_factors.specs.Flat.{flat_of};
ghost use Rattle.scale_factors.specs.Groups.{placed};

use standard::Shape;

// How many factors are long, how many after them are short, and the place of the first of these among the 39.
#[derive(Clone, Copy)]
pub(crate) struct Places {
    long: usize,
    short: usize,
    from: usize,
    ghost few: { (long ≤ 21) × (long + short ≤ 36) × (from + short ≤ 36) },
}

// The places of a slot's factors. In a mixed block MPEG-1 has more long ones before number 36, and the short ones begin with band 3.
pub(crate) fn places_of(mpeg1: bool, shape: Shape) -> Places
    ensures long { result.long ≡ long_count mpeg1 shape }
    ensures short { result.short ≡ short_count shape }
    ensures from { result.from ≡ short_from shape }
{
    match shape {
        Shape::AllLong => Places {
            long: 21,
            short: 0,
            from: 0,
        },
        Shape::AllShort => Places {
            long: 0,
            short: 36,
            from: 0,
        },
        Shape::LongThenShort => Places {
            long: if mpeg1 { 8 } else { 6 },
            short: 27,
            from: 9,
        },
    }
}

impl Places {
    // The long factors, the first ones, at the first of 22 places.
    pub(crate) fn long_of(self, fs: [u8; 36]) -> [u8; 22]
        ensures { result ≡ take self.long fs ++ replicate (22 - self.long) 0 }
    {
        let mut long = [0u8; 22];
        long[..self.long].copy_from_slice(&fs[..self.long]);
        long
    }

    // The short factors, those after the long ones, at their places of thirteen bands.
    fn bands_of(self, fs: [u8; 36]) -> [[u8; 3]; 13]
        ensures { result ≡ bands_of 13 (placed fs self.long self.short self.from) }
    {
        let mut short = [0u8; 39];
        let read = &fs[self.long..self.long + self.short];
        short[self.from..self.from + self.short].copy_from_slice(read);
        bands(short)
    }

    // And as they are told, one band after the other. Where there are none the thirteen bands are not gone through.
    pub(crate) fn short_of(self, fs: [u8; 36]) -> [u8; 39]
        ensures { result ≡ placed fs self.long self.short self.from }
    {
        if self.short == 0 {
            return [0u8; 39];
        }
        flat(self.bands_of(fs))
    }
}

// Thirteen bands of three windows, built and passed by value: the form that was asked for by name (docs/DECISIONS.md, Forms).
fn bands(fs: [u8; 39]) -> [[u8; 3]; 13]
    ensures { result ≡ bands_of 13 fs }
{
    let mut a = [[0u8; 3]; 13];
    for b in 0..13 {
        a[b] = [fs[3 * b], fs[3 * b + 1], fs[3 * b + 2]];
    }
    a
}

// The thirteen arrays one after the other.
fn flat(a: [[u8; 3]; 13]) -> [u8; 39]
    ensures { result ≡ flat_of a }
{
    let mut fs = [0u8; 39];
    for k in 0..39 {
        fs[k] = a[k / 3][k % 3];
    }
    fs
}
