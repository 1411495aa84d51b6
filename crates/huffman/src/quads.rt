// Quads one after the other, into lent numbers: a quad with its signs is one codeword of a code of its own.
ghost use Rattle.std.specs.Prelude.{◌≡◌, [], ◌∷◌, ◌+◌, ◌-◌, ◌/◌, ◌%◌, ◌≤◌, ◌<◌, ◌^◌, length, get_or, take};
ghost use Rattle.std.proofs.lemmas.List.Edits.{sets};
ghost use Rattle.standard.specs.Sizes.{per_slot};
ghost use Rattle.standard.specs.Bits.{between};
ghost use Rattle.standard.specs.Codes.{published, word_of};
ghost use Rattle.standard.specs.Numbers.{quad_table, prepend, quads};
ghost use Rattle.huffman.specs.Cells.{size, cells};
ghost use Rattle.huffman.specs.Runs.{NumbersRead};
ghost use Rattle.huffman.specs.Signed.{with_signs, digit, digits, held};

use crate::find::{VALUES, find, root};
use crate::flat::{QUADS, QUADS_OF_A, QUADS_OF_B, cell};
use crate::words::ahead;
use standard::SLOT_NUMBERS;

// The last position that has room for a quad.
const LAST_QUAD: usize = SLOT_NUMBERS - 4;

// Under which number the flat table holds the quads of A, or of B, with their signs.
pub(crate) fn quad_code(count1: bool) -> usize
    ensures { held result ≡ with_signs (published (quad_table count1)) }
{
    if count1 {
        return QUADS_OF_B;
    }
    QUADS_OF_A
}

// A number of a quad: its cell less 1.
fn number_at(i: usize) -> i32
    requires { (i < size) × (get_or cells i 0 < 3) }
    ensures { result ≡ digit (get_or cells i 0) }
{
    cell(i) as i32 - 1
}

// The four numbers of a quad's value, into lent ones from the i-th on.
pub(crate) fn put_quad(value: usize, i: usize, out: &mut [i32])
    requires { (value < 81) × (i + 4 ≤ length out.old) × (i ≤ per_slot) }
    ensures { out.new ≡ sets out.old i (digits value) }
{
    let k = QUADS + 4 * value;
    let v = number_at(k);
    let w = number_at(k + 1);
    let x = number_at(k + 2);
    let y = number_at(k + 3);
    out[i..i + 4].copy_from_slice(&[v, w, x, y]);
}

// Quads of table A, or of B, from the place `start` on, numbers from the position `from` on: as long as four fit and a quad ends. Answers how many numbers
// there are then.
pub(crate) fn read_quads(
    count1: bool,
    s: &[u8],
    start: usize,
    end: usize,
    from: usize,
    out: &mut [i32; SLOT_NUMBERS],
) -> u16
    requires { (from ≤ per_slot) × (start ≤ end) × (end < 2 ^ 32) }
    ensures { NumbersRead
        (prepend (take from out.old) (quads word_of (quad_table count1) ((per_slot - from) / 4) (between s.now start end)))
        from out.old out.new (Ok result) }
{
    let link = root(quad_code(count1));
    let mut at = start;
    let mut i = from;
    // the place that is reached is the answer, which a `for` with a step would not tell
    while i <= LAST_QUAD {
        let f = find(link, ahead(s, at));
        at += f.used;
        if end < at {
            return i as u16;
        }
        put_quad(f.value % VALUES, i, out);
        i += 4;
    }
    i as u16
}
