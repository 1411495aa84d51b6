// A slot's numbers, from the bits after its scale factors: regions, pairs, quads.
#![tactic(auto)]

mod find;
mod flat;
mod pairs;
mod quads;
mod runs;
mod values;
mod words;

ghost use Rattle.std.specs.Prelude.{◌≡◌, ◌≤◌, ◌<◌, ◌^◌, pos, replicate};
ghost use Rattle.standard.specs.Sizes.{per_slot, most_big_values};
ghost use Rattle.standard.specs.Bits.{between};
ghost use Rattle.standard.specs.Codes.{escape_width, word_of};
ghost use Rattle.standard.specs.Numbers.{pair_of, quad_table, quad_of, window_regions, regions_by, regions_of, numbers_of};
ghost use Rattle.huffman.specs.Slot.{slot_numbers, count_of, numbers_after};
ghost use Rattle.huffman.specs.Runs.{NumbersRead};

use bits::left;
use derived::shape_of;
use find::{VALUES, find, known, root};
use pairs::find_pair;
use quads::{put_quad, quad_code, read_quads};
use runs::read_pairs;
use standard::{
    MOST_BIG_VALUES, Refusal, Regions, SLOT_NUMBERS, SampleRate, Shape, SlotRecord, Taken, Unread,
};
use tables::bands::long_start;
use words::ahead;

static ESCAPES: [u8; 32] = [
    0, 0, 0, 0, 0, 0, 0, 0, 0, 0, 0, 0, 0, 0, 0, 0, 1, 2, 3, 4, 6, 8, 10, 13, 4, 5, 6, 7, 8, 9, 11,
    13,
];

// How many bits follow a value of 15 in a table.
#[tactic(auto, unfolding(standard::specs::Codes::escape_width, standard::specs::Codes::escapes))]
pub fn escape_width(table: usize) -> u8
    ensures { result ≡ escape_width table }
{
    ESCAPES.get(table).copied().unwrap_or(0)
}

// Bits are told by s, at and end, as `lookup`, `pair` and `quad` are public and promise of the three. `read_huffman` takes its places as u32, so that no sum
// within it wraps. How many are left is asked of `bits::left`, and no `saturating_sub` of the library, so that its promise and its edit are of what is called.

// The next codeword of a table, from the bit place `at` on and not past `end`.
pub fn lookup(table: usize, s: &[u8], at: usize, end: usize) -> Result<Taken<u8>, Unread>
    ensures { result ≡ word_of table (between s.now at end) }
{
    let f = find(root(known(table)), ahead(s, at));
    if left(at, end) < f.used {
        return Err(Unread::Cut);
    }
    Ok(Taken {
        value: (f.value % VALUES) as u8,
        used: f.used,
    })
}

// The pair of a table from the bit place `at` on and not past `end`.
pub fn pair(table: usize, s: &[u8], at: usize, end: usize) -> Result<Taken<(i32, i32)>, Refusal>
    ensures { result ≡ pair_of word_of table (between s.now at end) }
{
    let link = root(known(table));
    let width = escape_width(table) as usize;
    let b = find_pair(link, width, ahead(s, at));
    if left(at, end) < b.used {
        return Err(Refusal::PairOverrun);
    }
    Ok(b)
}

// The quad of table A, or of B, from the bit place `at` on and not past `end`.
pub fn quad(count1: bool, s: &[u8], at: usize, end: usize) -> Result<Taken<[i32; 4]>, Unread>
    ensures { result ≡ quad_of word_of (quad_table count1) (between s.now at end) }
{
    let f = find(root(quad_code(count1)), ahead(s, at));
    if left(at, end) < f.used {
        return Err(Unread::Cut);
    }
    let mut value = [0i32; 4];
    put_quad(f.value % VALUES, 0, &mut value);
    Ok(Taken {
        value,
        used: f.used,
    })
}

// Where the tables of long bands change: where the bands that the region counts name end. Past the last band that is 576.
fn long_regions(rate: SampleRate, r: SlotRecord) -> Regions
    ensures { result ≡ regions_by Shape.AllLong rate r }
{
    let zero = r.region0_count as usize;
    let one = r.region1_count as usize;
    Regions {
        first: long_start(rate, zero + 1),
        second: long_start(rate, zero + one + 2),
    }
}

// And where there are short bands, at every rate.
fn window_regions() -> Regions
    ensures { result ≡ window_regions }
{
    Regions {
        first: 36,
        second: SLOT_NUMBERS as u16,
    }
}

// Where the tables of a slot's pairs change.
fn regions_of(rate: SampleRate, r: SlotRecord) -> Regions
    ensures { result ≡ regions_of rate r }
{
    let block = r.block_type;
    let shape = shape_of(block, r.mixed_block_flag);
    match shape {
        Shape::AllLong => long_regions(rate, r),
        Shape::AllShort | Shape::LongThenShort => window_regions(),
    }
}

// A slot's numbers into lent zeros, which behind them stay as they were.
fn decode(
    rate: SampleRate,
    r: SlotRecord,
    s: &[u8],
    at: usize,
    end: usize,
    out: &mut [i32; SLOT_NUMBERS],
) -> Result<u16, Refusal>
    requires { (r.big_values ≤ most_big_values) × (out.old ≡ replicate per_slot (pos 0)) × (at ≤ end) × (end < 2 ^ 32) }
    ensures { NumbersRead (numbers_of word_of rate r (between s.now at end)) 0 out.old out.new result }
{
    let g = regions_of(rate, r);
    let tables = r.table_select;
    let n = r.big_values as usize;
    let place = read_pairs(g, tables, n, s, at, out);
    if end < place {
        return Err(Refusal::PairOverrun);
    }
    // with no bits nothing was coded, though pairs of tables without codewords were read
    if end <= at {
        return Ok(0);
    }
    Ok(read_quads(r.count1table_select, s, place, end, 2 * n, out))
}

// A slot's numbers from the bits between two places of s, into the first 576 lent ones, the rest of which is 0; answers how many of them were coded. They
// are read elsewhere first, so that a refused slot changes none.
pub fn read_huffman(
    rate: SampleRate,
    r: SlotRecord,
    s: &[u8],
    at: u32,
    end: u32,
    numbers: &mut [i32],
) -> Result<u16, Refusal>
    ensures result_value { result
        ≡ count_of (slot_numbers word_of rate r (between s.now at end) numbers.old) }
    ensures numbers_after { numbers.new
        ≡ numbers_after (slot_numbers word_of rate r (between s.now at end) numbers.old) numbers.old }
{
    if numbers.len() < SLOT_NUMBERS {
        return Err(Refusal::UnfitMemory);
    }
    if r.big_values > MOST_BIG_VALUES {
        return Err(Refusal::TooManyPairs);
    }
    let mut scratch = [0i32; SLOT_NUMBERS];
    let start = at.min(end) as usize;
    let count = decode(rate, r, s, start, end as usize, &mut scratch)?;
    numbers[..SLOT_NUMBERS].copy_from_slice(&scratch);
    Ok(count)
}
