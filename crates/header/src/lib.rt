// A frame's header: read from its first bytes, and which header records bytes read to.
#![tactic(auto)]

ghost use Rattle.std.specs.Prelude.{◌≡◌, ◌&&◌, ◌<◌, ◌/◌, ◌%◌, leb, length};
ghost use Rattle.standard.specs.Rows.{member};
ghost use Rattle.standard.specs.Header.{«bitrates», «rates», same_bitrate, same_rate, is_header, no_header};
ghost use Rattle.standard.specs.Header.{version_of, channels_of, emphasis_of, «fields», last_bytes, second_byte, header_of};

use derived::{bps, hz, is_mpeg1};
use standard::{BitRate, Channels, Emphasis, FrameHeader, MpegVersion, Refusal, SampleRate};

// ---- reading a header

// Two lists of the standard: no rule makes one of the other.
const MPEG1_BITRATES: [BitRate; 14] = [
    BitRate::Kbps32,
    BitRate::Kbps40,
    BitRate::Kbps48,
    BitRate::Kbps56,
    BitRate::Kbps64,
    BitRate::Kbps80,
    BitRate::Kbps96,
    BitRate::Kbps112,
    BitRate::Kbps128,
    BitRate::Kbps160,
    BitRate::Kbps192,
    BitRate::Kbps224,
    BitRate::Kbps256,
    BitRate::Kbps320,
];

const MPEG2_BITRATES: [BitRate; 14] = [
    BitRate::Kbps8,
    BitRate::Kbps16,
    BitRate::Kbps24,
    BitRate::Kbps32,
    BitRate::Kbps40,
    BitRate::Kbps48,
    BitRate::Kbps56,
    BitRate::Kbps64,
    BitRate::Kbps80,
    BitRate::Kbps96,
    BitRate::Kbps112,
    BitRate::Kbps128,
    BitRate::Kbps144,
    BitRate::Kbps160,
];

// The bitrates of a version, from field 1 on. MPEG-2.5 has those of MPEG-2.
#[tactic(auto, unfolding(standard::specs::Header::bitrates))]
fn bitrates(v: MpegVersion) -> [BitRate; 14]
    ensures { result ≡ «bitrates» v }
{
    if is_mpeg1(v) {
        return MPEG1_BITRATES;
    }
    MPEG2_BITRATES
}

// The sample rates of a version, from field 0 on.
#[tactic(auto, unfolding(standard::specs::Header::rates))]
fn rates(v: MpegVersion) -> [SampleRate; 3]
    ensures { result ≡ «rates» v }
{
    match v {
        MpegVersion::Mpeg1 => [
            SampleRate::Hz44100,
            SampleRate::Hz48000,
            SampleRate::Hz32000,
        ],
        MpegVersion::Mpeg2 => [
            SampleRate::Hz22050,
            SampleRate::Hz24000,
            SampleRate::Hz16000,
        ],
        MpegVersion::Mpeg25 => [SampleRate::Hz11025, SampleRate::Hz12000, SampleRate::Hz8000],
    }
}

// ---- from the numbers of the fields; `standard`, whose types these are, holds no code, so that no other crate can write a conversion for them

#[tactic(auto, unfolding(standard::specs::Header::version_of, standard::specs::Told::pick))]
fn version_of(v: u8) -> MpegVersion
    ensures { result ≡ version_of v }
{
    match v {
        3 => MpegVersion::Mpeg1,
        2 => MpegVersion::Mpeg2,
        _ => MpegVersion::Mpeg25,
    }
}

#[tactic(auto, unfolding(standard::specs::Header::emphasis_of, standard::specs::Told::pick))]
fn emphasis_of(v: u8) -> Emphasis
    ensures { result ≡ emphasis_of v }
{
    match v {
        0 => Emphasis::NoEmphasis,
        1 => Emphasis::FiftyFifteen,
        _ => Emphasis::CcitJ17,
    }
}

// Mode and mode extension, of a header's fourth byte.
#[tactic(auto, unfolding(standard::specs::Header::channels_of, standard::specs::Told::pick))]
fn channels_of(b: u8) -> Channels
    ensures { result ≡ channels_of b }
{
    let mode = b / 64;
    match mode {
        0 => Channels::Stereo,
        1 => Channels::JointStereo {
            intensity: b / 16 % 2 == 1,
            mid_side: b / 32 % 2 == 1,
        },
        2 => Channels::DualMono,
        _ => Channels::Mono,
    }
}

// The header that a second, third and fourth byte spell, which passed every test.
#[tactic(auto, unfolding(standard::specs::Header::fields))]
fn fields(b1: u8, b2: u8, b3: u8) -> FrameHeader
    requires { (0 < b2 / 16) × (b2 / 16 < 15) × (b2 / 4 % 4 < 3) }
    ensures { result ≡ «fields» b1 b2 b3 }
{
    let version = version_of(b1 / 8 % 4);
    let bitrates = bitrates(version);
    let rates = rates(version);
    let channels = channels_of(b3);
    let emphasis = emphasis_of(b3 % 4);
    FrameHeader {
        version,
        crc: b1 % 2 == 0,
        bitrate: bitrates[(b2 / 16 - 1) as usize],
        rate: rates[(b2 / 4 % 4) as usize],
        padding: b2 / 2 % 2 == 1,
        channels,
        copyright: b3 / 8 % 2 == 1,
        original: b3 / 4 % 2 == 1,
        emphasis,
    }
}

// The bytes of a header are needed from the first on: the first absent one stands where those that are there end.
fn absent(frame: &[u8]) -> Refusal
    requires { length frame.now < 6 }
    ensures { result ≡ Refusal.AbsentBytes (length frame.now) }
{
    let offset = frame.len() as u16;
    Refusal::AbsentBytes { offset }
}

// The third and fourth byte. The CRC's two bytes are needed last of all. Each of these functions needs another length, so that no one type says it.
#[tactic(auto, unfolding(standard::specs::Header::last_bytes, standard::specs::Told::pick))]
fn last_bytes(frame: &[u8]) -> Result<FrameHeader, Refusal>
    requires { 3 < length frame.now }
    ensures { result ≡ last_bytes frame.now }
{
    let b1 = frame[1];
    let b2 = frame[2];
    let b3 = frame[3];
    if b2 / 16 == 0 {
        return Err(Refusal::FreeBitrate);
    }
    if b2 / 16 == 15 {
        return Err(Refusal::ForbiddenBitrate);
    }
    if b2 / 4 % 4 == 3 {
        return Err(Refusal::ReservedRate);
    }
    if b3 % 4 == 2 {
        return Err(Refusal::ReservedEmphasis);
    }
    if b1 % 2 == 0 && frame.len() < 6 {
        return Err(absent(frame));
    }
    Ok(fields(b1, b2, b3))
}

// The second byte, and whether the third and fourth are there: they are needed together.
#[tactic(auto, unfolding(standard::specs::Header::second_byte, standard::specs::Told::pick))]
fn second_byte(frame: &[u8]) -> Result<FrameHeader, Refusal>
    requires { 1 < length frame.now }
    ensures { result ≡ second_byte frame.now }
{
    let b1 = frame[1];
    if b1 < 224 {
        return Err(Refusal::NoSync);
    }
    if b1 / 8 % 4 == 1 {
        return Err(Refusal::ReservedVersion);
    }
    if b1 / 2 % 4 == 0 {
        return Err(Refusal::ReservedLayer);
    }
    if b1 / 2 % 4 != 1 {
        return Err(Refusal::OtherLayer);
    }
    if frame.len() < 4 {
        return Err(absent(frame));
    }
    last_bytes(frame)
}

// A frame's header, or why there is none: the first fault decides, as the bytes come.
pub fn read_frame_header(frame: &[u8]) -> Result<FrameHeader, Refusal>
    ensures { result ≡ header_of frame.now }
{
    if frame.len() < 1 {
        return Err(absent(frame));
    }
    if frame[0] != 255 {
        return Err(Refusal::NoSync);
    }
    if frame.len() < 2 {
        return Err(absent(frame));
    }
    second_byte(frame)
}

// ---- which headers bytes read to

// In place of `(least..=most).contains(&n)`, whose promise is in `partial_cmp`: tried, and the proofs of the rows didn't close.
fn within(n: u32, least: u32, most: u32) -> bool
    ensures { result ≡ (leb least n && leb n most) }
{
    least <= n && n <= most
}

// A version's bitrates are all those of a range, but that MPEG-1 lacks 144 kbit/s.
fn has_bitrate(v: MpegVersion, b: BitRate) -> bool
    ensures { result ≡ member same_bitrate b («bitrates» v) }
{
    let n = bps(b);
    if is_mpeg1(v) {
        return within(n, 32_000, 320_000) && n != 144_000;
    }
    within(n, 8_000, 160_000)
}

fn has_rate(v: MpegVersion, f: SampleRate) -> bool
    ensures { result ≡ member same_rate f («rates» v) }
{
    let n = hz(f);
    match v {
        MpegVersion::Mpeg1 => within(n, 32_000, 48_000),
        MpegVersion::Mpeg2 => within(n, 16_000, 24_000),
        MpegVersion::Mpeg25 => within(n, 8_000, 12_000),
    }
}

// Whether some bytes read to a header: its bitrate and its rate are its version's.
#[tactic(auto, unfolding(standard::specs::Header::is_header))]
pub fn is_header(h: FrameHeader) -> bool
    ensures { result ≡ is_header h }
{
    has_bitrate(h.version, h.bitrate) && has_rate(h.version, h.rate)
}

// What stands for a header where none is told.
#[tactic(auto, unfolding(standard::specs::Header::no_header))]
pub fn no_header() -> FrameHeader
    ensures { result ≡ no_header }
{
    FrameHeader {
        version: MpegVersion::Mpeg1,
        crc: false,
        bitrate: BitRate::Kbps8,
        rate: SampleRate::Hz8000,
        padding: false,
        channels: Channels::Mono,
        copyright: false,
        original: false,
        emphasis: Emphasis::NoEmphasis,
    }
}
