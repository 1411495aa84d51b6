// A slot's scale factors.
#![tactic(auto)]

mod places;
pub mod plan;

ghost use Rattle.std.specs.Prelude.{◌≡◌, true, ◌+◌, ◌<◌, ◌≤◌, get_or, replicate};
ghost use Rattle.standard.specs.Bits.{bits};
ghost use Rattle.standard.specs.Record.{shape_of};
ghost use Rattle.standard.specs.Factors.{plan_of, source_of, sources_of, group, plan_bits, width_of, factor_by, long_factors, short_factors};
ghost use Rattle.scale_factors.specs.Groups.{factors_at, filled, Readable, Fit};

use bits::field;
use derived::{may_share, shape_of};
use places::places_of;
use plan::{group_bits, plan_of, width_of};
use standard::{Group, Plan, Setting, Shape, SlotRecord};

// The factors of a slot: how many bits they take (part2_length), the long ones, and three windows of thirteen short bands one after the other.
#[derive(Clone, Copy)]
pub struct Factors {
    pub bits: u32,
    pub long: [u8; 22],
    pub short: [u8; 39],
}

// One factor: granule 0's at every length, or the number that the next bits spell.
// old, s and at stay plain parameters: a struct of the three would be made by one function and taken apart by two.
#[tactic(auto, unfolding(standard::specs::Told::pick))]
fn read_factor(g: Group, old: &[u8; 22], i: usize, s: &[u8], at: usize) -> u8
    requires { (g.shared ≡ true → i < 22) × (g.length ≤ 5) }
    ensures { result ≡ factor_by (source_of g) (get_or old.now i 0) (bits s.now at (width_of (source_of g))) }
{
    if g.shared {
        return old[i];
    }
    field(s, at, g.length as usize) as u8
}

// Writes the factors of a group from the place `first` on, and answers the bit place after them.
fn read_group(
    g: Group,
    old: &[u8; 22],
    s: &[u8],
    at: usize,
    fs: &mut [u8; 36],
    first: usize,
) -> usize
    requires { Readable g first at }
    ensures { (result ≡ at + plan_bits (group g)) × (fs.new ≡ filled fs.old first (group g) old.now s.now at) }
{
    let width = width_of(g) as usize;
    let mut place = at;
    for i in first..first + g.count as usize {
        fs[i] = read_factor(g, old, i, s, place);
        place += width;
    }
    place
}

// The factors of a plan in turn, and zeros behind them.
fn read_plan(p: Plan, old: &[u8; 22], s: &[u8], at: usize) -> [u8; 36]
    requires { Fit p at }
    ensures { result ≡ filled (replicate 36 0) 0 (sources_of p) old.now s.now at }
{
    let mut fs = [0u8; 36];
    let mut place = at;
    let mut done = 0;
    for group in p.groups {
        place = read_group(group, old, s, place, &mut fs, done);
        done += group.count as usize;
    }
    fs
}

// How many bits the factors of a plan take (part2_length). A `for`: `map` and `sum` were tried, and the proof of the bound didn't close.
fn plan_bits(p: Plan) -> u32
    requires { plan_bits (sources_of p) ≤ 180 }
    ensures { result ≡ plan_bits (sources_of p) }
{
    let mut bits = 0;
    for group in p.groups {
        bits += group_bits(group);
    }
    bits
}

// The factors of a slot that starts at a bit place, `old` being the long ones of its channel in granule 0. What may not share is
// read without these; two calls, since one for both was measured slower in the loops over a slot's numbers.
pub fn read_scale_factors(g: Setting, r: SlotRecord, old: [u8; 22], s: &[u8], at: u32) -> Factors
    ensures { (result.bits ≡ plan_bits (sources_of (plan_of g r)))
        × (result.long ≡ long_factors g.mpeg1 (shape_of r) (factors_at g r old s.now at))
        × (result.short ≡ short_factors g.mpeg1 (shape_of r) (factors_at g r old s.now at)) }
{
    let plan = plan_of(g, r);
    let block = r.block_type;
    let shape = shape_of(block, r.mixed_block_flag);
    let share = may_share(shape);
    let fs = if share {
        read_plan(plan, &old, s, at as usize)
    } else {
        read_plan(plan, &[0u8; 22], s, at as usize)
    };
    let places = places_of(g.mpeg1, shape);
    Factors {
        bits: plan_bits(plan),
        long: places.long_of(fs),
        short: places.short_of(fs),
    }
}
