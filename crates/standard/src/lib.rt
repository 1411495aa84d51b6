// What is read from a card, and what is answered. There are no functions here: the definitions of specs/ go by these types.
#![tactic(auto)]

// ---- sizes, by the names that Sizes.antt has for them
pub const SLOT_NUMBERS: usize = 576;

pub const FRAME_NUMBERS: usize = 2304;

pub const MOST_BIG_VALUES: u16 = 288;

pub const RESERVOIR_BYTES: usize = 4096;

// ---- the types

// The document that a frame follows: ISO/IEC 11172-3, ISO/IEC 13818-3, or none (MPEG-2.5).
#[derive(Clone, Copy)]
pub enum MpegVersion {
    Mpeg1,
    Mpeg2,
    Mpeg25,
}

#[derive(Clone, Copy)]
pub enum Channels {
    Mono,
    DualMono,
    Stereo,
    JointStereo { intensity: bool, mid_side: bool },
}

#[derive(Clone, Copy)]
pub enum BitRate {
    Kbps8,
    Kbps16,
    Kbps24,
    Kbps32,
    Kbps40,
    Kbps48,
    Kbps56,
    Kbps64,
    Kbps80,
    Kbps96,
    Kbps112,
    Kbps128,
    Kbps144,
    Kbps160,
    Kbps192,
    Kbps224,
    Kbps256,
    Kbps320,
}

#[derive(Clone, Copy)]
pub enum SampleRate {
    Hz8000,
    Hz11025,
    Hz12000,
    Hz16000,
    Hz22050,
    Hz24000,
    Hz32000,
    Hz44100,
    Hz48000,
}

#[derive(Clone, Copy)]
pub enum Emphasis {
    NoEmphasis,
    FiftyFifteen,
    CcitJ17,
}

// A frame's header. The layer is always III; sizes and the row of the band tables follow from these fields.
#[derive(Clone, Copy)]
pub struct FrameHeader {
    pub version: MpegVersion,
    pub crc: bool,
    pub bitrate: BitRate,
    pub rate: SampleRate,
    pub padding: bool,
    pub channels: Channels,
    pub copyright: bool,
    pub original: bool,
    pub emphasis: Emphasis,
}

#[derive(Clone, Copy)]
pub enum BlockType {
    Long,
    Start,
    Short,
    End,
}

// Which bands a slot's factors and numbers are of: long ones; short ones in three windows; or, in a mixed block, long ones up to number 36 and short
// ones from there on.
#[derive(Clone, Copy)]
pub enum Shape {
    AllLong,
    AllShort,
    LongThenShort,
}

// Factors that stand next to each other: so many, of so many bits each, or shared with granule 0.
#[derive(Clone, Copy)]
pub struct Group {
    pub count: u16,
    pub length: u16,
    pub shared: bool,
}

// How a slot's bits hold its factors: four groups in turn.
#[derive(Clone, Copy)]
pub struct Plan {
    pub groups: [Group; 4],
}

// The side information of one slot: one granule of one channel.
#[derive(Clone, Copy)]
pub struct SlotRecord {
    pub part2_3_length: u16,
    pub big_values: u16,
    pub global_gain: u8,
    pub scalefac_compress: u16,
    pub block_type: BlockType, // Long where window_switching_flag is not set
    pub mixed_block_flag: bool, // kept of start and end blocks too, where it says nothing
    pub subblock_gain: [f32; 3],
    pub table_select: [u8; 3],
    pub region0_count: u8,
    pub region1_count: u8,
    pub preflag: bool,
    pub scalefac_scale: bool,
    pub count1table_select: bool, // table B
}

// A frame's side information. The n-th slot is of granule n / channels, channel n % channels; the sharing bit (scfsi) of a
// channel's i-th group of factors is the one at 4 x channel + i.
#[derive(Clone, Copy)]
pub struct SideInfo {
    pub main_data_begin: u16,
    pub scfsi: [bool; 8],
    pub slots: [SlotRecord; 4],
}

// The bytes that frames left behind stand in lent memory; this says how many of them, from the first, are meant.
#[derive(Clone, Copy)]
pub struct Reservoir {
    pub length: usize,
}

// Why a call, a frame or a slot is refused. Refusals.antt gives the number of each. Where bytes are absent, the offset of the first one that was
// needed is told, from the frame's first byte; no frame is so long that it needs more than 16 bits.
#[derive(Clone, Copy)]
pub enum Refusal {
    UnfitMemory,
    MadeUpRecord,
    AbsentBytes { offset: u16 },
    NoSync,
    ReservedVersion,
    ReservedLayer,
    OtherLayer,
    FreeBitrate,
    ForbiddenBitrate,
    ReservedRate,
    ReservedEmphasis,
    WrongCrc,
    TooManyPairs,
    ForbiddenBlock,
    MixedBlock,
    ShortReservoir,
    MissingBits,
    FactorOverrun,
    LostShare,
    PairOverrun,
    NoCodeword,
}

// What a slot is read by, besides its record: whether the version is MPEG-1, whether it is the second channel under intensity
// stereo, the sampling rate, and the sharing bits in force for its four groups of factors.
#[derive(Clone, Copy)]
pub struct Setting {
    pub mpeg1: bool,
    pub intensity: bool,
    pub rate: SampleRate,
    pub shares: [bool; 4],
}

// What became of a slot, one of three, which an Option of a Result would say less plainly: read, with its count of numbers up to the last that was coded, its 22 long factors, and three windows of each of
// 13 short bands, one after the other; refused; or one that the frame lacks. The numbers themselves stand in lent memory.
#[derive(Clone, Copy)]
pub enum SlotAnswer {
    Read {
        count: u16,
        long: [u8; 22],
        short: [u8; 39],
    },
    NotRead(Refusal),
    Lacking,
}

// What a frame's bytes say of it, before its slots: header, side information, and the length that follows from them.
#[derive(Clone, Copy)]
pub struct FrameHead {
    pub header: FrameHeader,
    pub info: SideInfo,
    pub length: usize,
}

// A frame that was read.
#[derive(Clone, Copy)]
pub struct Frame {
    pub head: FrameHead,
    pub slots: [SlotAnswer; 4],
}

// Why a frame has no slots: it is refused, and nothing is told of it; or only the reservoir was too short (ShortReservoir), and all but the
// slots was read.
#[derive(Clone, Copy)]
pub enum FrameRefusal {
    Unread(Refusal),
    OutOfReach(FrameHead),
}

// What was read, and how many bits it takes.
#[derive(Clone, Copy)]
pub struct Taken<T> {
    pub value: T,
    pub used: usize,
}

// Why no codeword is read: the bits end within one, or they start none.
#[derive(Clone, Copy)]
pub enum Unread {
    Cut,
    Alien,
}

// Where the tables of a slot's pairs change: positions among its 576 numbers.
#[derive(Clone, Copy)]
pub struct Regions {
    pub first: u16,
    pub second: u16,
}
