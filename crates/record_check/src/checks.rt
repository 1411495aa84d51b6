// What is asked of the fields of records and of side information.
ghost use Rattle.std.specs.Prelude.{◌≡◌, ◌≤◌};
ghost use Rattle.standard.specs.Told.{pick};
ghost use Rattle.standard.specs.Record.{gain_number, gain_below, trio, below, is_long, is_head, is_unmixed, is_long_body, is_switched_body};
ghost use Rattle.standard.specs.SideInfo.{is_absent, are_shares};

use crate::given::{compress_width, first_region, second_region};
use derived::{is_mixed, shape_of};
use standard::{BlockType, MOST_BIG_VALUES, SlotRecord};

// The patterns of the gains have nothing in their last 21 bits, so that the bits before these tell them, in a row without wide gaps.
const GAIN_STEP: u32 = 0x0020_0000;

// The number of a gain, 0 to 7, or 8 where it is none, as the definition has it (`gain_number`), so that a bound alone tells: by its pattern, since -0.0 is not 0.0.
pub fn gain_number(g: f32) -> u8
    ensures { result ≡ gain_number g }
{
    if g.is_nan() {
        return 8;
    }
    let p = f32::to_bits(g);
    if p == 0 {
        return 0; // most gains; among the others it would leave a wide gap, which costs speed
    }
    if p % GAIN_STEP != 0 {
        return 8;
    }
    match p / GAIN_STEP {
        0x1fc => 1,
        0x200 => 2,
        0x202 => 3,
        0x204 => 4,
        0x205 => 5,
        0x206 => 6,
        0x207 => 7,
        _ => 8,
    }
}

// Each of three gains is below n.
#[tactic(auto, unfolding(standard::specs::Record::trio))]
pub(crate) fn gains_below(g: [f32; 3], n: u8) -> bool
    ensures { result ≡ trio (gain_below n) (gain_below n) (gain_below n) g }
{
    let a = gain_number(g[0]);
    let b = gain_number(g[1]);
    let c = gain_number(g[2]);
    (a < n) & (b < n) & (c < n)
}

// The first two tables are below m, the third below n.
#[tactic(auto, unfolding(standard::specs::Record::trio))]
pub(crate) fn tables_below(t: [u8; 3], m: u8, n: u8) -> bool
    ensures { result ≡ trio (below m) (below m) (below n) t }
{
    (t[0] < m) & (t[1] < m) & (t[2] < n)
}

pub(crate) fn is_long(k: BlockType) -> bool
    ensures { result ≡ is_long k }
{
    matches!(k, BlockType::Long)
}

// What every record has: its gain is in range by its type.
#[tactic(auto, using(crate::proofs::Widths::width, crate::proofs::Tests::head_is))]
pub(crate) fn is_head(mpeg1: bool, r: SlotRecord) -> bool
    ensures { result ≡ is_head mpeg1 r }
{
    let c = compress_width(mpeg1);
    let preflag = mpeg1 | (r.preflag == (500 <= r.scalefac_compress));
    (r.part2_3_length < 4096)
        & (r.big_values <= MOST_BIG_VALUES)
        & (r.scalefac_compress < 1 << c)
        & preflag
}

// The rest of a record whose window is not switched.
#[tactic(auto, unfolding(standard::specs::Record::is_long_body))]
pub(crate) fn is_long_body(r: SlotRecord) -> bool
    ensures { result ≡ is_long_body r }
{
    let t = r.table_select;
    let g = r.subblock_gain;
    let a = tables_below(t, 32, 32);
    let b = gains_below(g, 1);
    a & b & ((r.region0_count < 16) & (r.region1_count < 8)) & !r.mixed_block_flag
}

// And of one whose window is.
#[tactic(auto, unfolding(standard::specs::Record::is_switched_body))]
pub(crate) fn is_switched_body(r: SlotRecord) -> bool
    ensures { result ≡ is_switched_body r }
{
    let t = r.table_select;
    let g = r.subblock_gain;
    let k = r.block_type;
    let a = tables_below(t, 32, 1);
    let b = gains_below(g, 8);
    let shape = shape_of(k, r.mixed_block_flag);
    let m = first_region(shape);
    let n = second_region(shape);
    a & b & ((r.region0_count == m) & (r.region1_count == n))
}

// Whether a record is one that 8 kHz allows, where that is the rate.
pub(crate) fn is_unmixed(slow: bool, r: SlotRecord) -> bool
    ensures { result ≡ is_unmixed slow r }
{
    let k = r.block_type;
    let shape = shape_of(k, r.mixed_block_flag);
    !(slow & is_mixed(shape))
}

// The rest of a record, by whether its window is switched.
#[tactic(auto, unfolding(standard::specs::Told::pick))]
pub(crate) fn is_body(r: SlotRecord) -> bool
    ensures { result ≡ pick (is_long r.block_type) (is_long_body r) (is_switched_body r) }
{
    let k = r.block_type;
    if is_long(k) {
        return is_long_body(r);
    }
    is_switched_body(r)
}

// Whether a record is that of a slot which the frame lacks.
#[tactic(auto, unfolding(standard::specs::SideInfo::is_absent, standard::specs::SideInfo::no_head, standard::specs::SideInfo::no_body, standard::specs::SideInfo::no_tail))]
pub(crate) fn is_absent(r: SlotRecord) -> bool
    ensures { result ≡ is_absent r }
{
    let k = r.block_type;
    let t = r.table_select;
    let g = r.subblock_gain;
    let head = (r.part2_3_length == 0)
        & (r.big_values == 0)
        & ((r.global_gain == 0) & (r.scalefac_compress == 0));
    let body = is_long(k) & !r.mixed_block_flag & gains_below(g, 1) & tables_below(t, 1, 1);
    let tail = ((r.region0_count == 0) & (r.region1_count == 0))
        & (!r.preflag & !r.scalefac_scale & !r.count1table_select);
    head & body & tail
}

// Eight sharing bits, of which none from the n-th on is set.
pub(crate) fn no_shares(n: usize, s: [bool; 8]) -> bool
    requires { n ≤ 8 }
    ensures { result ≡ are_shares n s }
{
    !s[n..].contains(&true)
}
