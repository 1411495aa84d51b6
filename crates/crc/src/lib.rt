// The check word of some bytes, a byte at a time, and whether a frame's own fits.
#![tactic(auto)]

ghost use Rattle.std.specs.Prelude.{◌≡◌, ◌*◌, ◌<◌};
ghost use Rattle.standard.specs.Bits.{between, «one», value};
ghost use Rattle.standard.specs.Written.{bits_of};
ghost use Rattle.standard.specs.Crc.{fed, crc_fits};
ghost use Rattle.crc.specs.Odd.{odd_of};

use bits::{byte, field};

// Started at all ones.
const START: u16 = 0xFFFF;

// Where the bytes start that a frame's CRC covers: two of the header, up to the CRC itself, and the side information after it.
pub const FIRST_COVERED: usize = 2;

const CRC_AT: usize = 4;

const COVERED_AFTER: usize = 6;

const CRC_BITS: usize = 16;

// Bit n is set where an odd number of the four bits of n are.
const ODD_OF_FOUR: u16 = 0x6996;

// What comes out last is added again at these three bits.
const LAST_TAPS: u16 = 0x8003;

// 1 where an odd number of the low eight bits are set.
fn parity(x: u16) -> u16
    requires { x < 256 }
    ensures { (result ≡ «one» (odd_of (bits_of 8 x))) × (result < 2) }
{
    (ODD_OF_FOUR >> (((x >> 4) ^ x) % 16)) % 2
}

// The register after eight bits more. What they and its high byte add up to comes out, and is added again where the taps are.
fn with_byte(c: u16, b: u16) -> u16
    requires { b < 256 }
    ensures { result ≡ value (fed (bits_of 16 c) (bits_of 8 b)) }
{
    let x = (c >> 8) ^ b;
    (c << 8) ^ (x << 1) ^ (x << 2) ^ (parity(x) * LAST_TAPS)
}

// The register after the bytes from one place up to another.
pub fn with_bytes(c: u16, s: &[u8], from: usize, to: usize) -> u16
    ensures { result ≡ value (fed (bits_of 16 c) (between s.now (8 * from) (8 * to))) }
{
    let mut word = c;
    for i in from..to {
        word = with_byte(word, byte(s, i) as u16);
    }
    word
}

// Whether the CRC of a frame fits, whose side information ends before a byte.
#[tactic(auto, using(crate::proofs::Strings::fits_is))]
pub fn fits(frame: &[u8], end: usize) -> bool
    ensures { result ≡ crc_fits frame.now end }
{
    let header = with_bytes(START, frame, FIRST_COVERED, CRC_AT);
    let all = with_bytes(header, frame, COVERED_AFTER, end);
    all == field(frame, 8 * CRC_AT, CRC_BITS)
}
