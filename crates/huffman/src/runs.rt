// Pairs one after the other, into lent numbers.
ghost use Rattle.std.specs.Prelude.{◌≡◌, ◌+◌, ◌/◌, ◌≤◌, ◌<◌, ◌^◌, min, length};
ghost use Rattle.standard.specs.Sizes.{per_slot, most_big_values};
ghost use Rattle.standard.specs.Numbers.{table_at};
ghost use Rattle.huffman.specs.Run.{RunOn, PairsRun};

use crate::escape_width;
use crate::find::{known, root};
use crate::pairs::find_pair;
use crate::words::ahead;
use standard::{Regions, SLOT_NUMBERS};

// The pairs of a table from one number of pair up to another, from the bit place `start` on; answers the place after them. Where the bits end is not looked
// at, since a pair that runs over leaves every later place past the end.
fn read_run(
    table: usize,
    s: &[u8],
    start: usize,
    from: usize,
    to: usize,
    out: &mut [i32; SLOT_NUMBERS],
) -> usize
    requires { (from ≤ to) × (to ≤ most_big_values) × (start < 2 ^ 60) }
    ensures { RunOn table s.now start from to out.old out.new result }
{
    let link = root(known(table));
    let width = escape_width(table) as usize;
    let mut at = start;
    for k in from..to {
        let p = find_pair(link, width, ahead(s, at));
        let (x, y) = p.value;
        out[2 * k] = x;
        out[2 * k + 1] = y;
        at += p.used;
    }
    at
}

// How many of n pairs start before a position.
fn pairs_before(position: u16, n: usize) -> usize
    ensures { result ≡ min ((position + 1) / 2) n }
{
    ((position as usize + 1) / 2).min(n)
}

// The first n pairs of a slot, by the tables of its regions.
pub(crate) fn read_pairs(
    g: Regions,
    tables: [u8; 3],
    n: usize,
    s: &[u8],
    start: usize,
    out: &mut [i32; SLOT_NUMBERS],
) -> usize
    requires { (g.first ≤ g.second) × (n ≤ most_big_values) × (start < 2 ^ 32) }
    ensures { PairsRun (table_at g.first g.second tables) s.now start n out.old out.new result }
{
    let ends = [pairs_before(g.first, n), pairs_before(g.second, n), n];
    let mut at = start;
    let mut done: usize = 0;
    for region in 0..3 {
        let to = ends[region];
        at = read_run(tables[region] as usize, s, at, done, to, out);
        done = to;
    }
    at
}
