// The front end for C and Rust: the calls that `front_end_c` exports, on numbers and on slices of numbers. Each is total, and what it answers is laid
// out in specs/Calls.antt. A frame's bytes are always handed in from the first byte of its header on.
#![tactic(auto)]

ghost use Rattle.std.specs.Prelude.{◌≡◌, length};
ghost use Rattle.standard.specs.Header.{header_of};
ghost use Rattle.standard.specs.Reservoir.{«emptied»};
ghost use Rattle.front_end.specs.Calls.{call_told, unread_in_numbers, head_in_numbers, FrameDone, frame_step, SlotsDone, slots_step, records_in, ReorderDone, reorder_step, sizes_told};

use crate::rows::{ROWS, put_rows};
use derived::{
    bps, channel_count, frame_length, granules, header_size, hz, main_size, number_of, offset_of,
    side_size,
};
use frame::{process_frame, read_slots};
use header::read_frame_header;
use reorder::reorder;
use reservoir::emptied;
use side_info::read_side_info;
use standard::{FRAME_NUMBERS, FrameHead, FrameRefusal, Refusal, Reservoir, SLOT_NUMBERS};

mod rows;

// The C interface: what C and Rust lend are slices, and what they are answered are structs of numbers. Within, a call is a Result.

// What a call answers: 0 or the number of the refusal; after refusal 2 the offset of the first byte that was needed and absent, else 0.
#[repr(C)]
#[derive(Clone, Copy)]
pub struct CallTold {
    pub refusal: u8,
    pub offset: usize,
}

// What a frame answers: what a call does, the frame's length, how many bytes its main data begins before its own, and the reservoir's
// length for the next frame.
#[repr(C)]
#[derive(Clone, Copy)]
pub struct FrameTold {
    pub refusal: u8,
    pub offset: usize,
    pub length: usize,
    pub main_data_begin: usize,
    pub reservoir: usize,
}

// What a header says of its frame: what a call does; bytes of the frame, of its header, side information and main
// data; granules, channels, samples for a second, bits for a second.
#[repr(C)]
#[derive(Clone, Copy)]
pub struct Sizes {
    pub refusal: u8,
    pub offset: usize,
    pub length: usize,
    pub header: usize,
    pub side: usize,
    pub main: usize,
    pub granules: usize,
    pub channels: usize,
    pub rate: u32,
    pub bitrate: u32,
}

// Sizes where there is no header.
const NO_SIZES: Sizes = Sizes {
    refusal: 0,
    offset: 0,
    length: 0,
    header: 0,
    side: 0,
    main: 0,
    granules: 0,
    channels: 0,
    rate: 0,
    bitrate: 0,
};

// A call in numbers.
fn call_told(r: Result<(), Refusal>) -> CallTold
    ensures { result ≡ call_told r }
{
    match r {
        Ok(()) => CallTold {
            refusal: 0,
            offset: 0,
        },
        Err(why) => CallTold {
            refusal: number_of(why),
            offset: offset_of(why),
        },
    }
}

// A frame that is refused, and nothing is told of it, in numbers.
fn frame_unread(why: Refusal, reservoir: usize) -> FrameTold
    ensures { result ≡ unread_in_numbers why reservoir }
{
    let t = call_told(Err(why));
    FrameTold {
        refusal: t.refusal,
        offset: t.offset,
        length: 0,
        main_data_begin: 0,
        reservoir,
    }
}

// One that was read, or only reaches too far back.
fn frame_told(r: Result<(), Refusal>, head: FrameHead, kept: Reservoir) -> FrameTold
    ensures { result ≡ head_in_numbers r head kept }
{
    let t = call_told(r);
    FrameTold {
        refusal: t.refusal,
        offset: t.offset,
        length: head.length,
        main_data_begin: usize::from(head.info.main_data_begin),
        reservoir: kept.length,
    }
}

// One frame. `reservoir` is the length that the last frame answered.
pub fn front_end_frame(
    frame: &[u8],
    bytes: &mut [u8],
    reservoir: usize,
    numbers: &mut [i32],
    rows: &mut [u16],
) -> FrameTold
    ensures { FrameDone bytes.old reservoir numbers.old rows.old
        (frame_step frame.now bytes.old reservoir (length numbers.old) (length rows.old)) result bytes.new
        numbers.new rows.new }
{
    let Some(rows) = rows.first_chunk_mut::<ROWS>() else {
        return frame_unread(Refusal::UnfitMemory, reservoir);
    };
    let mut kept = Reservoir { length: reservoir };
    match process_frame(frame, bytes, &mut kept, numbers) {
        Ok(f) => {
            put_rows(rows, f.head.info.slots, f.slots);
            frame_told(Ok(()), f.head, kept)
        }
        Err(FrameRefusal::OutOfReach(head)) => {
            frame_told(Err(Refusal::ShortReservoir), head, kept)
        }
        Err(FrameRefusal::Unread(why)) => frame_unread(why, kept.length),
    }
}

// The slots, and their rows where they were read.
fn read_slots_of(
    frame: &[u8],
    main: &[u8],
    numbers: &mut [i32],
    rows: &mut [u16],
) -> Result<(), Refusal>
    ensures { SlotsDone numbers.old rows.old (records_in frame.now)
        (slots_step frame.now main.now (length numbers.old) (length rows.old)) (call_told result) numbers.new
        rows.new }
{
    let Some(rows) = rows.first_chunk_mut::<ROWS>() else {
        return Err(Refusal::UnfitMemory);
    };
    // a name for the test, which the proof goes by
    let few = numbers.len() < FRAME_NUMBERS;
    if few {
        return Err(Refusal::UnfitMemory);
    }
    let h = read_frame_header(frame)?;
    let i = read_side_info(h, frame)?;
    let slots = read_slots(h, i, main, numbers)?;
    put_rows(rows, i.slots, slots);
    Ok(())
}

// The slots of a frame from given main data of any length; of the frame only the header and the side information are read.
pub fn front_end_slots(frame: &[u8], main: &[u8], numbers: &mut [i32], rows: &mut [u16]) -> CallTold
    ensures { SlotsDone numbers.old rows.old (records_in frame.now)
        (slots_step frame.now main.now (length numbers.old) (length rows.old)) result numbers.new
        rows.new }
{
    call_told(read_slots_of(frame, main, numbers, rows))
}

// For a gap on the card: the length of a reservoir of which no byte is meant.
pub fn front_end_emptied() -> usize
    ensures { result ≡ «emptied».length }
{
    emptied().length
}

// The reorder of the slot that the frame has by this number.
fn reorder_slot(frame: &[u8], slot: usize, numbers: &mut [i32]) -> Result<(), Refusal>
    ensures { ReorderDone numbers.old (reorder_step frame.now slot numbers.old) (call_told result) numbers.new }
{
    if numbers.len() < SLOT_NUMBERS {
        return Err(Refusal::UnfitMemory);
    }
    let h = read_frame_header(frame)?;
    let i = read_side_info(h, frame)?;
    if granules(h) * channel_count(h) <= slot {
        return Err(Refusal::MadeUpRecord);
    }
    reorder(h, i.slots[slot], numbers)
}

// The reorder of a slot's 576 numbers, by the frame's own record of the slot; only short slots are changed.
pub fn front_end_reorder(frame: &[u8], slot: usize, numbers: &mut [i32]) -> CallTold
    ensures { ReorderDone numbers.old (reorder_step frame.now slot numbers.old) result numbers.new }
{
    call_told(reorder_slot(frame, slot, numbers))
}

// The sizes of a frame, by the frame's first bytes.
#[tactic(auto, unfolding(crate::specs::Calls::sizes_told))]
pub fn front_end_sizes(frame: &[u8]) -> Sizes
    ensures { result ≡ sizes_told (header_of frame.now) }
{
    match read_frame_header(frame) {
        Ok(h) => Sizes {
            refusal: 0,
            offset: 0,
            length: frame_length(h),
            header: header_size(h),
            side: side_size(h),
            main: main_size(h),
            granules: granules(h),
            channels: channel_count(h),
            rate: hz(h.rate),
            bitrate: bps(h.bitrate),
        },
        Err(why) => {
            let t = call_told(Err(why));
            Sizes {
                refusal: t.refusal,
                offset: t.offset,
                ..NO_SIZES
            }
        }
    }
}
