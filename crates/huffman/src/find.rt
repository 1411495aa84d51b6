// A codeword in the flat table, some bits at a time.
ghost use Rattle.std.specs.Prelude.{◌≡◌, ◌+◌, ◌-◌, ◌*◌, ◌/◌, ◌%◌, ◌≤◌, ◌<◌, ◌^◌, get_or};
ghost use Rattle.standard.specs.Codes.{published};
ghost use Rattle.huffman.specs.Cells.{size, cells};
ghost use Rattle.huffman.specs.Found.{root_of, IsRoot, FoundIn};
ghost use Rattle.huffman.specs.Signed.{held};

use crate::flat::{CODES, SILENT, TABLES, cell};
use standard::Taken;

// A link is its node's width so many times, and its place.
const WIDTHS: usize = 4096;

// A cell from this on is a leaf: a value, above it how many bits of its node the codeword has, and above these whether a value of a pair is 15.
const LEAF: usize = 0x8000;

pub(crate) const VALUES: usize = 256;

const LENGTHS: usize = 8;

pub(crate) const FIFTEEN: usize = 4096;

// The number under which the flat table holds a table's code: a number that is no table's has the code of table 0, which is silent.
pub(crate) fn known(table: usize) -> usize
    ensures { held result ≡ published table }
{
    if table < TABLES {
        return table;
    }
    0
}

// The link of a code that is held.
pub(crate) fn root(code: usize) -> usize
    ensures { result ≡ root_of code }
{
    if code < CODES {
        return cell(code) as usize;
    }
    SILENT
}

// The cell of a link's node that the bits of a word choose, the first so many of which are gone.
fn chosen(link: usize, word: u64, gone: usize) -> usize
    requires { (gone < 64) × (0 < link / 4096) × (link / 4096 < 64) × (link % 4096 + (word * 2 ^ gone) % 2 ^ 64 / 2 ^ (64 - link / 4096) < size) }
    ensures { (result ≡ get_or cells (link % 4096 + (word * 2 ^ gone) % 2 ^ 64 / 2 ^ (64 - link / 4096)) 0) × (result < 65536) }
{
    let turned = word << gone;
    let k = (turned >> (64 - link / WIDTHS)) as usize;
    cell(link % WIDTHS + k) as usize
}

// The leaf of the codeword that a word starts with, whatever bits it has.
pub(crate) fn find(link: usize, word: u64) -> Taken<usize>
    requires { IsRoot link }
    ensures { FoundIn link word result.value result.used }
{
    let mut node = link;
    let mut used = 0usize;
    let mut e = chosen(node, word, used);
    // links are followed to a leaf, and none is counted
    while e < LEAF {
        used += node / WIDTHS;
        node = e;
        e = chosen(node, word, used);
    }
    Taken {
        value: e,
        used: used + e / VALUES % LENGTHS,
    }
}
