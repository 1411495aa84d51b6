// Bytes put and moved in lent memory. What finds no room is left out. `put` and `slide` each cut their range by two `min`: what a helper
// answered they would still have to add to the place.
#![tactic(auto)]

ghost use Rattle.std.specs.Prelude.{◌≡◌, ◌-◌, min, length};
ghost use Rattle.lent_bytes.specs.Put.{Put, slid_of};

// The smaller of two.
pub fn least(a: usize, b: usize) -> usize
    ensures { result ≡ min a b }
{
    a.min(b)
}

// Puts bytes at a place, and answers the place after them.
pub fn put(lent: &mut [u8], at: usize, bytes: &[u8]) -> usize
    ensures { Put lent.old at bytes.now result lent.new }
{
    let start = at.min(lent.len());
    let n = bytes.len().min(lent.len() - start);
    // by number: `copy_from_slice` here is compiled to a call of memmove, which who links the archive need not have (bindings/c/front_end.h)
    for i in 0..n {
        lent[start + i] = bytes[i];
    }
    at + n
}

// Moves the n bytes from a place on to the front.
pub fn slide(lent: &mut [u8], from: usize, n: usize)
    ensures { lent.new ≡ slid_of lent.old from n }
{
    let start = from.min(lent.len());
    let there = n.min(lent.len() - start);
    lent.copy_within(start..start + there, 0);
}
