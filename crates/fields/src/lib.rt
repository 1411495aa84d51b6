// A frame's answer as numbers, for the exported rows and for programs that print it or hold it to another reader's: the fields of its header, its side
// information and its slots' records, and where the next frame is tried.
#![tactic(auto)]

ghost use Rattle.std.specs.Prelude.{◌≡◌};
ghost use Rattle.fields.specs.Values.{version_number, mode_number, is_mid_side, emphasis_number, block_number, header_values, side_values, record_values, scale_values, head_told, step_of};

use derived::{bps, hz, is_intensity};
use record_check::checks::gain_number;
use standard::{
    BlockType, Channels, Emphasis, Frame, FrameHead, FrameHeader, FrameRefusal, MpegVersion,
    SideInfo, SlotRecord,
};

// Versions, modes, emphases and block types stay numbers here: they are what is printed and exported, by the standard's own codes.

fn version_number(v: MpegVersion) -> u8
    ensures { result ≡ version_number v }
{
    match v {
        MpegVersion::Mpeg1 => 1,
        MpegVersion::Mpeg2 => 2,
        MpegVersion::Mpeg25 => 25,
    }
}

fn mode_number(c: Channels) -> u8
    ensures { result ≡ mode_number c }
{
    match c {
        Channels::Mono => 3,
        Channels::DualMono => 2,
        Channels::Stereo => 0,
        Channels::JointStereo { .. } => 1,
    }
}

fn is_mid_side(c: Channels) -> bool
    ensures { result ≡ is_mid_side c }
{
    matches!(c, Channels::JointStereo { mid_side: true, .. })
}

fn emphasis_number(e: Emphasis) -> u8
    ensures { result ≡ emphasis_number e }
{
    match e {
        Emphasis::NoEmphasis => 0,
        Emphasis::FiftyFifteen => 1,
        Emphasis::CcitJ17 => 3,
    }
}

fn block_number(b: BlockType) -> u8
    ensures { result ≡ block_number b }
{
    match b {
        BlockType::Long => 0,
        BlockType::Start => 1,
        BlockType::Short => 2,
        BlockType::End => 3,
    }
}

// A header's fields as numbers, in the order of its bits.
#[tactic(auto, unfolding(crate::specs::Values::header_values))]
pub fn header_values(h: FrameHeader) -> [u64; 11]
    ensures { result ≡ header_values h }
{
    [
        u64::from(version_number(h.version)),
        u64::from(h.crc),
        u64::from(bps(h.bitrate)),
        u64::from(hz(h.rate)),
        u64::from(h.padding),
        u64::from(mode_number(h.channels)),
        u64::from(is_mid_side(h.channels)),
        u64::from(is_intensity(h.channels)),
        u64::from(h.copyright),
        u64::from(h.original),
        u64::from(emphasis_number(h.emphasis)),
    ]
}

// Side information's own fields as numbers.
#[tactic(auto, unfolding(crate::specs::Values::side_values))]
pub fn side_values(i: SideInfo) -> [u64; 9]
    ensures { result ≡ side_values i }
{
    let s = i.scfsi;
    [
        u64::from(i.main_data_begin),
        u64::from(s[0]),
        u64::from(s[1]),
        u64::from(s[2]),
        u64::from(s[3]),
        u64::from(s[4]),
        u64::from(s[5]),
        u64::from(s[6]),
        u64::from(s[7]),
    ]
}

// A record's fields as numbers, its gains as 0 to 7.
#[tactic(auto, unfolding(crate::specs::Values::record_values))]
pub fn record_values(r: SlotRecord) -> [u64; 17]
    ensures { result ≡ record_values r }
{
    let g = r.subblock_gain;
    let t = r.table_select;
    [
        u64::from(r.part2_3_length),
        u64::from(r.big_values),
        u64::from(r.global_gain),
        u64::from(r.scalefac_compress),
        u64::from(block_number(r.block_type)),
        u64::from(r.mixed_block_flag),
        u64::from(gain_number(g[0])),
        u64::from(gain_number(g[1])),
        u64::from(gain_number(g[2])),
        u64::from(t[0]),
        u64::from(t[1]),
        u64::from(t[2]),
        u64::from(r.region0_count),
        u64::from(r.region1_count),
        u64::from(r.preflag),
        u64::from(r.scalefac_scale),
        u64::from(r.count1table_select),
    ]
}

// What a slot's numbers are scaled by (11172-3, 2.4.3.4.7.1): its block type, global_gain, the three subblock gains as 0 to 7, scalefac_scale, preflag
// and mixed_block_flag, the last to be told.
#[tactic(auto, unfolding(crate::specs::Values::scale_values))]
pub fn scale_values(r: SlotRecord) -> [u8; 8]
    ensures { result ≡ scale_values r }
{
    let g = r.subblock_gain;
    [
        block_number(r.block_type),
        r.global_gain,
        gain_number(g[0]),
        gain_number(g[1]),
        gain_number(g[2]),
        u8::from(r.scalefac_scale),
        u8::from(r.preflag),
        u8::from(r.mixed_block_flag),
    ]
}

// What a frame's answer tells of it: of one that was read, and of one that only reaches too far back.
#[tactic(auto, unfolding(crate::specs::Values::head_told))]
pub fn head_told(a: &Result<Frame, FrameRefusal>) -> Option<FrameHead>
    ensures { result ≡ head_told a.now }
{
    match a {
        Ok(f) => Some(f.head),
        Err(FrameRefusal::OutOfReach(head)) => Some(*head),
        Err(FrameRefusal::Unread(_)) => None,
    }
}

// How far the next try is from this one.
#[tactic(auto, unfolding(crate::specs::Values::step_of, crate::specs::Values::length_or_one))]
pub fn step(a: &Result<Frame, FrameRefusal>) -> usize
    ensures { result ≡ step_of a.now }
{
    head_told(a).map_or(1, |head| head.length)
}
