// A frame's answer as lines of text: a word and numbers, each after a space.
ghost use Rattle.std.specs.Prelude.{◌≤◌};

use derived::{channel_count, granules, number_of, shape_of};
use fields::{header_values, record_values, side_values};
use lines::{Text, part};
use reorder::reorder;
use standard::{
    Frame, FrameHead, FrameHeader, FrameRefusal, Refusal, SLOT_NUMBERS, Shape, SlotAnswer,
    SlotRecord,
};

fn put_items<N: Copy + Into<u64>>(text: &mut Text<'_>, values: &[N]) {
    for n in values {
        text.put(b" ");
        text.number((*n).into());
    }
}

fn put_row<N: Copy + Into<u64>>(text: &mut Text<'_>, word: &[u8], values: &[N]) {
    text.put(word);
    put_items(text, values);
    text.put(b"\n");
}

fn put_signs(text: &mut Text<'_>, word: &[u8], numbers: &[i32]) {
    text.put(word);
    text.numbers(numbers);
    text.put(b"\n");
}

// A slot's numbers after the reorder.
fn put_reordered(text: &mut Text<'_>, h: FrameHeader, r: SlotRecord, numbers: &[i32]) {
    let mut after = [0i32; SLOT_NUMBERS];
    let end = numbers.len().min(SLOT_NUMBERS);
    after[..end].copy_from_slice(&numbers[..end]);
    let _ = reorder(h, r, &mut after);
    put_signs(text, b"reordered", &after);
}

// Which granule and channel a slot is of.
#[derive(Clone, Copy)]
struct Place {
    granule: u64,
    channel: u64,
}

fn place_of(h: FrameHeader, n: usize) -> Place {
    let n = n as u64;
    if channel_count(h) == 1 {
        return Place {
            granule: n,
            channel: 0,
        };
    }
    Place {
        granule: n / 2,
        channel: n % 2,
    }
}

// A slot that was read: its count, factors and numbers, and where there are short bands its numbers after the reorder.
fn put_slot(
    text: &mut Text<'_>,
    h: FrameHeader,
    r: SlotRecord,
    slot: &SlotAnswer,
    place: Place,
    numbers: &[i32],
) {
    match slot {
        SlotAnswer::Lacking => {}
        SlotAnswer::NotRead(why) => {
            put_row(
                text,
                b"missed",
                &[place.granule, place.channel, number_of(*why) as u64],
            );
        }
        SlotAnswer::Read { count, long, short } => {
            put_row(
                text,
                b"slot",
                &[place.granule, place.channel, *count as u64],
            );
            put_row(text, b"long", long);
            put_row(text, b"short", short);
            put_signs(text, b"numbers", part(numbers, 0, *count as usize));
            match shape_of(r.block_type, r.mixed_block_flag) {
                Shape::AllLong => {}
                Shape::AllShort | Shape::LongThenShort => put_reordered(text, h, r, numbers),
            }
        }
    }
}

fn put_slots(text: &mut Text<'_>, frame: &Frame, numbers: &[i32]) {
    let h = frame.head.header;
    let records = frame.head.info.slots;
    for (n, slot) in frame.slots.iter().enumerate() {
        let own = part(numbers, SLOT_NUMBERS * n, SLOT_NUMBERS);
        put_slot(text, h, records[n], slot, place_of(h, n), own);
    }
}

// How many slots a frame has.
fn slot_count(h: FrameHeader) -> usize
    ensures { result ≤ 4 }
{
    match (granules(h), channel_count(h)) {
        (1, 1) => 1,
        (1, _) | (_, 1) => 2,
        _ => 4,
    }
}

// The records of the slots that the frame has.
fn put_records(text: &mut Text<'_>, h: FrameHeader, records: &[SlotRecord; 4]) {
    for (n, r) in records.iter().enumerate().take(slot_count(h)) {
        let place = place_of(h, n);
        text.put(b"record");
        put_items(text, &[place.granule, place.channel]);
        put_row(text, b"", &record_values(*r));
    }
}

// The lines on the header, the side information and the records.
fn put_head(text: &mut Text<'_>, head: &FrameHead) {
    put_row(text, b"header", &header_values(head.header));
    put_row(text, b"side", &side_values(head.info));
    put_records(text, head.header, &head.info.slots);
}

// A frame that tells nothing but its refusal: the number, and of absent bytes the offset of the first.
fn put_refused(text: &mut Text<'_>, place: u64, why: Refusal) {
    let number = number_of(why) as u64;
    if let Refusal::AbsentBytes { offset } = why {
        put_row(text, b"refused", &[place, number, offset as u64]);
    } else {
        put_row(text, b"refused", &[place, number]);
    }
}

// What is answered of a frame: its first line has where it was tried, and its length and the reservoir's, or the number by which it is
// refused.
pub(crate) fn put_answer(
    text: &mut Text<'_>,
    place: u64,
    answer: &Result<Frame, FrameRefusal>,
    kept: u64,
    numbers: &[i32],
) {
    match answer {
        Ok(frame) => {
            put_row(text, b"frame", &[place, frame.head.length as u64, kept]);
            put_head(text, &frame.head);
            put_slots(text, frame, numbers);
        }
        Err(FrameRefusal::OutOfReach(head)) => {
            put_row(text, b"reach", &[place, head.length as u64, kept]);
            put_head(text, head);
        }
        Err(FrameRefusal::Unread(why)) => put_refused(text, place, *why),
    }
}

pub(crate) fn put_card(text: &mut Text<'_>, n: u64) {
    put_row(text, b"card", &[n]);
}
