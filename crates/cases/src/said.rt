// What is answered, said on the standard output word by word.
use derived::{channel_count, granules, is_two, number_of, why_of};
use fields::{head_told, record_values};
use frame::answers::lacking_slots;
use lines::Text;
use standard::{BlockType, Frame, FrameHeader, FrameRefusal, Refusal, SlotAnswer, SlotRecord};

// A text as it is.
pub(crate) fn say(rt: &impl Print, text: &[u8]) {
    let _ = rt.write_all(text);
}

// The text that was put in lent bytes.
pub(crate) fn say_text(rt: &impl Print, text: &Text<'_>) {
    say(rt, text.said());
}

// The end of a line.
pub(crate) fn say_end(rt: &impl Print) {
    say(rt, b"\n");
}

// A number after a word.
pub(crate) fn say_count(rt: &impl Print, word: &[u8], n: u64) {
    say(rt, word);
    let _ = rt.print(n);
}

// Whether something was refused, after a word; of absent bytes with the offset of the first.
pub(crate) fn say_verdict(rt: &impl Print, word: &[u8], refusal: Option<Refusal>) {
    say(rt, word);
    let Some(why) = refusal else {
        say(rt, b"accepted");
        return;
    };
    say_count(rt, b"refused ", number_of(why) as u64);
    if let Refusal::AbsentBytes { offset } = why {
        say_count(rt, b" offset ", offset as u64);
    }
}

// Numbers, each after a blank.
pub(crate) fn say_numbers(rt: &impl Print, numbers: &[i32]) {
    let mut out = [0u8; 65536];
    let mut text = Text {
        bytes: &mut out,
        at: 0,
    };
    text.numbers(numbers);
    say_text(rt, &text);
}

// ---- slots
// Factors after a word; the windows of a short band are told together.
fn say_factors(rt: &impl Print, word: &[u8], factors: &[u8], windows: usize) {
    say(rt, word);
    for band in factors.chunks(windows.max(1)) {
        for (i, factor) in band.iter().enumerate() {
            say_count(rt, if i == 0 { b" " } else { b"," }, u64::from(*factor));
        }
    }
    say_end(rt);
}

// A slot alone: four slots, of which the frame lacks all but the n-th.
fn say_slot(rt: &impl Print, two: bool, n: usize, slot: &SlotAnswer, numbers: &[i32]) {
    let mut slots = lacking_slots();
    slots[n % 4] = *slot;
    let mut out = [0u8; 4096];
    let mut text = Text {
        bytes: &mut out,
        at: 0,
    };
    text.slots(two, &slots, numbers);
    say_text(rt, &text);
}

// The slots of a frame, a line each, and where they are asked for the factors of those that were read.
pub(crate) fn say_slots(
    rt: &impl Print,
    h: FrameHeader,
    slots: &[SlotAnswer; 4],
    numbers: &[i32],
    factors: bool,
) {
    for (n, slot) in slots.iter().enumerate() {
        say_slot(rt, is_two(h.channels), n, slot, numbers);
        if let SlotAnswer::Read { long, short, .. } = slot
            && factors
        {
            say_factors(rt, b"long", long, 1);
            say_factors(rt, b"short", short, 3);
        }
    }
}

// A frame and its slots.
pub(crate) fn say_frame(
    rt: &impl Print,
    answer: &Result<Frame, FrameRefusal>,
    kept: usize,
    numbers: &[i32],
    factors: bool,
) {
    let length = head_told(answer).map_or(0, |head| head.length);
    say_verdict(rt, b"frame ", answer.err().map(why_of));
    say_count(rt, b" length ", length as u64);
    say_count(rt, b" reservoir ", kept as u64);
    say_end(rt);
    if let Ok(frame) = answer {
        say_slots(rt, frame.head.header, &frame.slots, numbers, factors);
    }
}

// ---- records
fn block_word(block: BlockType) -> &'static str {
    match block {
        BlockType::Long => "long",
        BlockType::Start => "start",
        BlockType::Short => "short",
        BlockType::End => "end",
    }
}

fn say_values(rt: &impl Print, names: &[&str], values: &[u64]) {
    for (name, n) in names.iter().zip(values) {
        let _ = rt.print(*name);
        let _ = rt.print(*n);
    }
}

// A record's values after their names. The block type is told by its own; mixed_block_flag, which comes after it there, is told last.
fn say_record(rt: &impl Print, granule: usize, channel: usize, r: SlotRecord) {
    let values = record_values(r);
    say_count(rt, b"record ", granule as u64);
    say_count(rt, b" ", channel as u64);
    say_values(rt, &[" len ", " big ", " gain ", " comp "], &values);
    say(rt, b" block ");
    let _ = rt.print(block_word(r.block_type));
    say_values(
        rt,
        &[
            " sub ",
            " ",
            " ",
            " tables ",
            " ",
            " ",
            " regions ",
            " ",
            " pre ",
            " scale ",
            " c1 ",
        ],
        &values[6..],
    );
    say_values(rt, &[" mixed "], &values[5..]);
    say_end(rt);
}

// The records of the slots that the frame has.
pub(crate) fn say_records(rt: &impl Print, h: FrameHeader, records: &[SlotRecord; 4]) {
    let granules = records.chunks(channel_count(h).max(1)).take(granules(h));
    for (granule, channels) in granules.enumerate() {
        for (channel, r) in channels.iter().enumerate() {
            say_record(rt, granule, channel, *r);
        }
    }
}
