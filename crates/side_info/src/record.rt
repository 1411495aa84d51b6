// A slot's record, read from its bits in two parts: what every record has (k), and the 23 bits of its window, from the flag on (w).
// Only scalefac_compress and what comes after the window differ between the versions.
ghost use Rattle.std.specs.Prelude.{◌≡◌, Bool, List, ℕ, ◌<◌};
ghost use Rattle.standard.specs.Bits.{field};
ghost use Rattle.standard.specs.Header.{is_mpeg1, is_slow};
ghost use Rattle.standard.specs.Record.{absent, block_of, compress_width, record_width, long_of, switched_of, record_of, preflag_of};
ghost use Rattle.side_info.specs.Parts.{common_of, record_bits, PartsAt};

use bits::{bit, field, word};
use derived::{is_mixed, is_mpeg1, is_slow, shape_of};
use record_check::given::{compress_width, first_region, second_region};
use standard::{BlockType, FrameHeader, MOST_BIG_VALUES, Refusal, SlotRecord};

// What every record has, whatever its window.
#[derive(Clone, Copy)]
pub(crate) struct Common {
    pub part2_3_length: u16,
    pub big_values: u16,
    pub global_gain: u8,
    pub scalefac_compress: u16,
    pub preflag: bool,
    pub scalefac_scale: bool,
    pub count1table_select: bool,
}

// The bits of a record.
pub(crate) fn record_width(mpeg1: bool) -> u16
    ensures { result ≡ record_width mpeg1 }
{
    if mpeg1 {
        return 59;
    }
    63
}

// block_type, of the two bits that spell it; a function, since `standard` holds no code.
#[tactic(auto, unfolding(standard::specs::Record::block_of))]
pub(crate) fn block_of(t: u64) -> BlockType
    requires { t < 4 }
    ensures { result ≡ block_of t }
{
    match t {
        0 => BlockType::Long,
        1 => BlockType::Start,
        2 => BlockType::Short,
        _ => BlockType::End,
    }
}

// The record of a window that is not switched.
pub(crate) fn long_record(k: Common, w: u64) -> SlotRecord
    ensures { (mpeg1 : Bool) (s : List ℕ) (at : ℕ) → PartsAt mpeg1 s at k w
        → result ≡ long_of mpeg1 (compress_width mpeg1) (record_bits mpeg1 s at) }
{
    let gains = [0.0f32, 0.0f32, 0.0f32];
    let tables = [
        ((w >> 17) % 32) as u8,
        ((w >> 12) % 32) as u8,
        ((w >> 7) % 32) as u8,
    ];
    SlotRecord {
        part2_3_length: k.part2_3_length,
        big_values: k.big_values,
        global_gain: k.global_gain,
        scalefac_compress: k.scalefac_compress,
        block_type: BlockType::Long,
        mixed_block_flag: false,
        subblock_gain: gains,
        table_select: tables,
        region0_count: ((w >> 3) % 16) as u8,
        region1_count: (w % 8) as u8,
        preflag: k.preflag,
        scalefac_scale: k.scalefac_scale,
        count1table_select: k.count1table_select,
    }
}

// The record of a switched window, of a block type that is not 0.
pub(crate) fn switched_record(k: Common, w: u64, block: BlockType, mixed: bool) -> SlotRecord
    ensures { (mpeg1 : Bool) (s : List ℕ) (at : ℕ) → PartsAt mpeg1 s at k w
        → result ≡ switched_of mpeg1 (compress_width mpeg1) block mixed (record_bits mpeg1 s at) }
{
    let gains = [
        ((w >> 6) % 8) as u8 as f32,
        ((w >> 3) % 8) as u8 as f32,
        (w % 8) as u8 as f32,
    ];
    let tables = [((w >> 14) % 32) as u8, ((w >> 9) % 32) as u8, 0];
    let shape = shape_of(block, mixed);
    let region0 = first_region(shape);
    let region1 = second_region(shape);
    SlotRecord {
        part2_3_length: k.part2_3_length,
        big_values: k.big_values,
        global_gain: k.global_gain,
        scalefac_compress: k.scalefac_compress,
        block_type: block,
        mixed_block_flag: mixed,
        subblock_gain: gains,
        table_select: tables,
        region0_count: region0,
        region1_count: region1,
        preflag: k.preflag,
        scalefac_scale: k.scalefac_scale,
        count1table_select: k.count1table_select,
    }
}

// The record of a slot that the frame lacks.
#[tactic(auto, using(crate::proofs::Fields::zero_gain), unfolding(standard::specs::Record::absent))]
pub(crate) fn absent_record() -> SlotRecord
    ensures { result ≡ absent }
{
    let gains = [0.0f32, 0.0f32, 0.0f32];
    let tables = [0u8, 0u8, 0u8];
    SlotRecord {
        part2_3_length: 0,
        big_values: 0,
        global_gain: 0,
        scalefac_compress: 0,
        block_type: BlockType::Long,
        mixed_block_flag: false,
        subblock_gain: gains,
        table_select: tables,
        region0_count: 0,
        region1_count: 0,
        preflag: false,
        scalefac_scale: false,
        count1table_select: false,
    }
}

// The record of these parts, or its first fault.
pub(crate) fn record_of(k: Common, w: u64, slow: bool) -> Result<SlotRecord, Refusal>
    ensures { (mpeg1 : Bool) (s : List ℕ) (at : ℕ) → PartsAt mpeg1 s at k w → result ≡ record_of mpeg1 slow (record_bits mpeg1 s at) }
{
    let pairs = k.big_values;
    if MOST_BIG_VALUES < pairs {
        return Err(Refusal::TooManyPairs);
    }
    let switched = (w >> 22) % 2;
    if switched != 1 {
        return Ok(long_record(k, w));
    }
    let t = (w >> 20) % 4;
    if t == 0 {
        return Err(Refusal::ForbiddenBlock);
    }
    let block = block_of(t);
    let mixed = (w >> 19) % 2 == 1;
    let shape = shape_of(block, mixed);
    if slow & is_mixed(shape) {
        return Err(Refusal::MixedBlock);
    }
    Ok(switched_record(k, w, block, mixed))
}

// Read in MPEG-1 only; else it goes by scalefac_compress.
#[tactic(auto, using(crate::proofs::Fields::preflag_read, crate::proofs::Fields::preflag_follows))]
pub(crate) fn read_preflag(s: &[u8], at: u16, mpeg1: bool, compress: u16) -> bool
    ensures { compress ≡ field (record_bits mpeg1 s.now at) 29 (compress_width mpeg1)
        → result ≡ preflag_of mpeg1 (record_bits mpeg1 s.now at) }
{
    if !mpeg1 {
        return 500 <= compress;
    }
    bit(s, at as usize + 56)
}

// What every record has, of the one whose bits start at a place.
#[tactic(auto, using(record_check::proofs::Widths::width))]
pub(crate) fn read_common(s: &[u8], at: u16, mpeg1: bool) -> Common
    ensures { result ≡ common_of mpeg1 (record_bits mpeg1 s.now at) }
{
    let from = at as usize;
    let head = word(s, from, 29);
    let c = compress_width(mpeg1);
    let compress = field(s, from + 29, c);
    let preflag = read_preflag(s, at, mpeg1, compress);
    let end = from + record_width(mpeg1) as usize;
    let scale = bit(s, end - 2);
    let count1 = bit(s, end - 1);
    Common {
        part2_3_length: ((head >> 17) % 4096) as u16,
        big_values: ((head >> 8) % 512) as u16,
        global_gain: (head % 256) as u8,
        scalefac_compress: compress,
        preflag,
        scalefac_scale: scale,
        count1table_select: count1,
    }
}

// The record whose bits start at a place, or its first fault.
#[tactic(auto, using(record_check::proofs::Widths::width))]
pub(crate) fn read_record(h: FrameHeader, s: &[u8], at: u16) -> Result<SlotRecord, Refusal>
    ensures { result ≡ record_of (is_mpeg1 h.version) (is_slow h.rate) (record_bits (is_mpeg1 h.version) s.now at) }
{
    let mpeg1 = is_mpeg1(h.version);
    let k = read_common(s, at, mpeg1);
    let c = compress_width(mpeg1);
    let w = word(s, at as usize + 29 + c, 23);
    record_of(k, w, is_slow(h.rate))
}
