// What follows from a declared value: what a header's fields say, the sizes and counts of its frame, the shape of a record, the
// number of a refusal.
#![tactic(auto)]

ghost use Rattle.std.specs.Prelude.{◌≡◌, ◌*◌, ◌/◌};
ghost use Rattle.standard.specs.Record.{shape_by, is_mixed};
ghost use Rattle.standard.specs.Factors.{may_share};
ghost use Rattle.standard.specs.Refusals.{number_of, offset_of, why_of};
ghost use Rattle.standard.specs.Header.{«bps», «hz», is_mpeg1, is_two, is_slow, is_intensity};
ghost use Rattle.standard.specs.Header.{slot_bytes, header_size, data_size, frame_length, side_bytes, side_size, main_size, «granules», channel_count};

use bits::one;
use standard::{
    BitRate, BlockType, Channels, FrameHeader, FrameRefusal, MpegVersion, Refusal, SampleRate,
    Shape,
};

// ---- what the fields say
// Quantities in a match: `standard`, whose types these are, holds no code, so that no other crate can write a conversion for them.

// Bits for a second.
pub fn bps(b: BitRate) -> u32
    ensures { result ≡ «bps» b }
{
    match b {
        BitRate::Kbps8 => 8_000,
        BitRate::Kbps16 => 16_000,
        BitRate::Kbps24 => 24_000,
        BitRate::Kbps32 => 32_000,
        BitRate::Kbps40 => 40_000,
        BitRate::Kbps48 => 48_000,
        BitRate::Kbps56 => 56_000,
        BitRate::Kbps64 => 64_000,
        BitRate::Kbps80 => 80_000,
        BitRate::Kbps96 => 96_000,
        BitRate::Kbps112 => 112_000,
        BitRate::Kbps128 => 128_000,
        BitRate::Kbps144 => 144_000,
        BitRate::Kbps160 => 160_000,
        BitRate::Kbps192 => 192_000,
        BitRate::Kbps224 => 224_000,
        BitRate::Kbps256 => 256_000,
        BitRate::Kbps320 => 320_000,
    }
}

// Samples for a second.
pub fn hz(f: SampleRate) -> u32
    ensures { result ≡ «hz» f }
{
    match f {
        SampleRate::Hz8000 => 8_000,
        SampleRate::Hz11025 => 11_025,
        SampleRate::Hz12000 => 12_000,
        SampleRate::Hz16000 => 16_000,
        SampleRate::Hz22050 => 22_050,
        SampleRate::Hz24000 => 24_000,
        SampleRate::Hz32000 => 32_000,
        SampleRate::Hz44100 => 44_100,
        SampleRate::Hz48000 => 48_000,
    }
}

// Whether the version is MPEG-1.
pub fn is_mpeg1(v: MpegVersion) -> bool
    ensures { result ≡ is_mpeg1 v }
{
    matches!(v, MpegVersion::Mpeg1)
}

// Whether there are two channels.
pub fn is_two(c: Channels) -> bool
    ensures { result ≡ is_two c }
{
    !matches!(c, Channels::Mono)
}

// Whether intensity stereo is on.
pub fn is_intensity(c: Channels) -> bool
    ensures { result ≡ is_intensity c }
{
    matches!(
        c,
        Channels::JointStereo {
            intensity: true,
            mid_side: _
        }
    )
}

// Which bands a slot's factors and numbers are of. By two fields: side information asks before there is a record.
pub fn shape_of(b: BlockType, mixed: bool) -> Shape
    ensures { result ≡ shape_by b mixed }
{
    match (b, mixed) {
        (BlockType::Long, _) => Shape::AllLong,
        (BlockType::Start, _) => Shape::AllLong,
        (BlockType::Short, false) => Shape::AllShort,
        (BlockType::Short, true) => Shape::LongThenShort,
        (BlockType::End, _) => Shape::AllLong,
    }
}

// Whether long bands come before short ones.
pub fn is_mixed(shape: Shape) -> bool
    ensures { result ≡ is_mixed shape }
{
    // here and below a clause for each shape, and no `matches!`: whoever adds a shape is told of both (docs/ARCHITECTURE.md, "Where a change goes")
    match shape {
        Shape::AllLong => false,
        Shape::AllShort => false,
        Shape::LongThenShort => true,
    }
}

// Whether factors may be granule 0's: those of long bands alone (scfsi).
pub fn may_share(shape: Shape) -> bool
    ensures { result ≡ may_share shape }
{
    match shape {
        Shape::AllLong => true,
        Shape::AllShort => false,
        Shape::LongThenShort => false,
    }
}

// Whether the rate is 8 kHz.
pub fn is_slow(f: SampleRate) -> bool
    ensures { result ≡ is_slow f }
{
    matches!(f, SampleRate::Hz8000)
}

// ---- the sizes that follow from a header, one that no bytes read to included

// The bytes of the header with the CRC: 4 or 6.
#[tactic(auto, unfolding(standard::specs::Header::header_size))]
pub fn header_size(h: FrameHeader) -> usize
    ensures { result ≡ header_size h }
{
    if h.crc { 6 } else { 4 }
}

fn slot_bytes(v: MpegVersion) -> u32
    ensures { result ≡ slot_bytes v }
{
    match v {
        MpegVersion::Mpeg1 => 144,
        MpegVersion::Mpeg2 | MpegVersion::Mpeg25 => 72,
    }
}

// A frame's bytes without the padding byte.
fn unpadded(v: MpegVersion, b: BitRate, f: SampleRate) -> u32
    ensures { result ≡ slot_bytes v * «bps» b / «hz» f }
{
    slot_bytes(v) * bps(b) / hz(f)
}

// What follows the header. A frame has at least 12 bytes, more than any header takes.
#[tactic(auto, using(standard::proofs::HeaderLaws::any_size), unfolding(standard::specs::Header::data_size, standard::specs::Header::header_size))]
fn data_size(h: FrameHeader) -> usize
    ensures { result ≡ data_size h }
{
    unpadded(h.version, h.bitrate, h.rate) as usize + one(h.padding) - header_size(h)
}

// The bytes of a whole frame.
#[tactic(auto, unfolding(standard::specs::Header::frame_length))]
pub fn frame_length(h: FrameHeader) -> usize
    ensures { result ≡ frame_length h }
{
    header_size(h) + data_size(h)
}

fn side_bytes(mpeg1: bool, two: bool) -> usize
    ensures { result ≡ side_bytes mpeg1 two }
{
    match (mpeg1, two) {
        (true, true) => 32,
        (true, false) => 17,
        (false, true) => 17,
        (false, false) => 9,
    }
}

// The bytes of the side information: 9, 17 or 32.
#[tactic(auto, unfolding(standard::specs::Header::side_size))]
pub fn side_size(h: FrameHeader) -> usize
    ensures { result ≡ side_size h }
{
    side_bytes(is_mpeg1(h.version), is_two(h.channels))
}

// The bytes after the side information: none where a header that no bytes read to has too little room for that.
#[tactic(auto, unfolding(standard::specs::Header::main_size))]
pub fn main_size(h: FrameHeader) -> usize
    ensures { result ≡ main_size h }
{
    data_size(h).saturating_sub(side_size(h))
}

// The granules of a frame: two in MPEG-1, one otherwise.
#[tactic(auto, unfolding(standard::specs::Header::granules))]
pub fn granules(h: FrameHeader) -> usize
    ensures { result ≡ «granules» h }
{
    if is_mpeg1(h.version) { 2 } else { 1 }
}

// The channels of a frame: one or two.
#[tactic(auto, unfolding(standard::specs::Header::channel_count))]
pub fn channel_count(h: FrameHeader) -> usize
    ensures { result ≡ channel_count h }
{
    if is_two(h.channels) { 2 } else { 1 }
}

// ---- what a refusal is called
// Numbers are given here alone, since text and exported rows need them, and `standard` has no code for them.

// The number of a refusal (docs/REFUSALS.md), for programs to print and for callers in other languages.
pub fn number_of(why: Refusal) -> u8
    ensures { result ≡ number_of why }
{
    match why {
        Refusal::UnfitMemory => 1,
        Refusal::MadeUpRecord => 14,
        Refusal::AbsentBytes { offset: _ } => 2,
        Refusal::NoSync => 3,
        Refusal::ReservedVersion => 4,
        Refusal::ReservedLayer => 5,
        Refusal::OtherLayer => 6,
        Refusal::FreeBitrate => 7,
        Refusal::ForbiddenBitrate => 8,
        Refusal::ReservedRate => 15,
        Refusal::ReservedEmphasis => 9,
        Refusal::WrongCrc => 16,
        Refusal::TooManyPairs => 10,
        Refusal::ForbiddenBlock => 11,
        Refusal::MixedBlock => 12,
        Refusal::ShortReservoir => 13,
        Refusal::MissingBits => 20,
        Refusal::FactorOverrun => 21,
        Refusal::LostShare => 22,
        Refusal::PairOverrun => 24,
        Refusal::NoCodeword => 25,
    }
}

// The offset of the first byte that was needed and absent, from the frame's first; 0 for a refusal that tells none.
pub fn offset_of(why: Refusal) -> usize
    ensures { result ≡ offset_of why }
{
    match why {
        Refusal::AbsentBytes { offset } => offset as usize,
        _ => 0,
    }
}

// Why a frame has no slots.
pub fn why_of(e: FrameRefusal) -> Refusal
    ensures { result ≡ why_of e }
{
    match e {
        FrameRefusal::Unread(why) => why,
        FrameRefusal::OutOfReach(_) => Refusal::ShortReservoir,
    }
}
