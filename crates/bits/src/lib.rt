// A bit, and a field of bits, at a bit place of a slice: most significant first, and 0 past the end; and how many bits are left.
#![tactic(auto)]

ghost use Rattle.std.specs.Prelude.{◌≡◌, ◌+◌, ◌-◌, ◌*◌, ◌/◌, ◌<◌, ◌≤◌, ◌^◌, min, length, get_or};
ghost use Rattle.standard.specs.Bits.{bit_at, «one», field_at};

// The bit at a place; false past the end.
#[tactic(auto, using(standard::specs::BitsLaws::bit_at_past), unfolding(standard::specs::Bits::bit_at))]
pub fn bit(s: &[u8], at: usize) -> bool
    ensures { result ≡ bit_at s.now at }
{
    s.get(at / 8).is_some_and(|b| (*b >> (7 - at % 8)) % 2 == 1)
}

// A byte; 0 past the end.
pub fn byte(s: &[u8], i: usize) -> u32
    ensures { (result ≡ get_or s.now i 0) × (result < 256) }
{
    s.get(i).copied().unwrap_or(0) as u32
}

// Eight bytes that are there, as one number.
fn near_eight(s: &[u8], i: usize) -> u64
    requires { i + 8 ≤ length s.now }
    ensures { result ≡ field_at s.now (8 * i) 64 }
{
    u64::from_be_bytes([
        s[i],
        s[i + 1],
        s[i + 2],
        s[i + 3],
        s[i + 4],
        s[i + 5],
        s[i + 6],
        s[i + 7],
    ])
}

// Eight bytes as one number; those past the end are 0.
fn far_eight(s: &[u8], i: usize) -> u64
    requires { i < 2 ^ 61 }
    ensures { result ≡ field_at s.now (8 * i) 64 }
{
    let mut v = 0u64;
    for k in 0..8 {
        v = v * 256 + byte(s, i + k) as u64;
    }
    v
}

// The eight bytes from the one on that a bit place is in, as one number; those past the end are 0. Where all are there, none is
// tested by itself.
pub fn eight(s: &[u8], at: usize) -> u64
    ensures { result ≡ field_at s.now (8 * (at / 8)) 64 }
{
    let i = at / 8;
    if i < s.len().saturating_sub(7) {
        return near_eight(s, i);
    }
    far_eight(s, i)
}

// The n bits from a place on as a number, the first 57 of them where n is more; bits past the end are 0. They lie within eight
// bytes, out of which they are cut.
pub fn word(s: &[u8], at: usize, n: usize) -> u64
    ensures { result ≡ field_at s.now at (min n 57) }
{
    let m = n.min(57);
    (eight(s, at) >> (7 - at % 8) >> (57 - m)) % (1u64 << m)
}

// The n bits from a place on as a number, the first 16 of them where n is more; bits past the end are 0.
pub fn field(s: &[u8], at: usize, n: usize) -> u16
    ensures { result ≡ field_at s.now at (min n 16) }
{
    word(s, at, n.min(16)) as u16
}

// 1 for a set bit, 0 for one that is not.
pub fn one(x: bool) -> usize
    ensures { result ≡ «one» x }
{
    usize::from(x)
}

// How many bits are left from one place up to another.
pub fn left(at: usize, end: usize) -> usize
    ensures { result ≡ end - at }
{
    end.saturating_sub(at)
}
