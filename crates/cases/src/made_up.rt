// The last frame's header and side information, with what a line makes up of them: none, `h`, or `r S NAME=V ..`.
use crate::words::Words;
use header::{no_header, read_frame_header};
use side_info::read_side_info;
use side_info::side::no_side;
use standard::{BlockType, FrameHeader, SampleRate, SideInfo, SlotRecord};

// A line names no more fields.
const FIELDS: usize = 16;

pub(crate) fn header_in(frame: &[u8]) -> FrameHeader {
    read_frame_header(frame).unwrap_or(no_header())
}

fn side_in(frame: &[u8]) -> SideInfo {
    read_side_info(header_in(frame), frame).unwrap_or(no_side())
}

pub(crate) fn header_by(frame: &[u8], line: &[u8]) -> FrameHeader {
    let mut header = header_in(frame);
    if let [b'h', ..] = line {
        header.rate = SampleRate::Hz8000;
    }
    header
}

// By any number of a line; the two bits of side information spell 0 to 3 alone, and `side_info` asks its callers for that.
fn block_of(n: usize) -> BlockType {
    match n {
        0 => BlockType::Long,
        1 => BlockType::Start,
        2 => BlockType::Short,
        _ => BlockType::End,
    }
}

// The last letter tells a field: big, region0, region1, type, mixed. By any other nothing is changed.
fn set_field(record: &mut SlotRecord, letter: u8, n: usize) {
    match letter {
        b'e' => record.block_type = block_of(n),
        b'0' => record.region0_count = (n % 256) as u8,
        b'1' => record.region1_count = (n % 256) as u8,
        b'g' => record.big_values = (n % 65536) as u16,
        b'd' => record.mixed_block_flag = 0 < n,
        _ => {}
    }
}

fn with_fields(old: SlotRecord, line: Words<'_>) -> SlotRecord {
    let mut new = old;
    let mut words = line;
    for _ in 0..FIELDS {
        if words.rest().is_empty() {
            break;
        }
        words.find(|c| c == b'=');
        let letter = words.last();
        let n = words.number();
        set_field(&mut new, letter, n);
    }
    new
}

pub(crate) fn side_by(frame: &[u8], line: &[u8]) -> SideInfo {
    let mut side = side_in(frame);
    if let [b'r', ..] = line {
        let mut words = Words::of(line);
        let slot = words.number() % 4;
        side.slots[slot] = with_fields(side.slots[slot], words);
    }
    side
}
