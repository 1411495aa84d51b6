// One frame of a recording, from its bytes and what the frames before it left in the reservoir; and its slots from given main data: each cut out by the lengths
// before it, read, and answered.
#![tactic(auto)]

ghost use Rattle.std.specs.Prelude.{◌≡◌, true, ◌≤◌, length, take, Ok};
ghost use Rattle.standard.specs.Sizes.{reservoir_bytes};
ghost use Rattle.standard.specs.Header.{header_of, main_size, is_header};
ghost use Rattle.standard.specs.SideInfo.{is_side};
ghost use Rattle.standard.specs.Slots.{read_slots, SlotsRead};
ghost use Rattle.standard.specs.Reservoir.{turn_of};
ghost use Rattle.standard.specs.Frame.{with_turn, frame_of, frame_call, FrameRead};
ghost use Rattle.frame.specs.Memory.{MemoryRead};

use crate::frame_slots::slots_from;
use derived::{frame_length, header_size, main_size, side_size};
use header::{is_header, read_frame_header};
use record_check::is_side_info;
use reservoir::turn;
use side_info::side_under;
use standard::{
    FRAME_NUMBERS, Frame, FrameHead, FrameHeader, FrameRefusal, RESERVOIR_BYTES, Refusal,
    Reservoir, SideInfo, SlotAnswer,
};

pub mod answers;
mod frame_slots;
mod setting;
mod slot;

// Below, header and side information stay two as in `read_slots`, and bytes, reservoir and numbers as in `process_frame`, which are public.

// The main data takes its turn with the reservoir, and the slots are read from what is kept.
fn with_main(
    h: FrameHeader,
    i: SideInfo,
    main: &[u8],
    bytes: &mut [u8],
    reservoir: &mut Reservoir,
    numbers: &mut [i32; FRAME_NUMBERS],
) -> Result<Frame, FrameRefusal>
    requires { (reservoir_bytes ≤ length bytes.old) × (reservoir.old.length ≤ reservoir_bytes) × (is_header h ≡ true)
        × (is_side h i ≡ true) × (length main.now ≡ main_size h) }
    ensures { FrameRead bytes.old reservoir.old numbers.old
        (with_turn h i (turn_of i.main_data_begin (take reservoir.old.length bytes.old) main.now)) result reservoir.new
        bytes.new numbers.new }
{
    let head = FrameHead {
        header: h,
        info: i,
        length: frame_length(h),
    };
    let Ok(()) = turn(&mut *bytes, &mut *reservoir, i.main_data_begin, main) else {
        return Err(FrameRefusal::OutOfReach(head));
    };
    let kept = reservoir.length;
    let slots = slots_from(h, i, &bytes[..kept], numbers);
    Ok(Frame { head, slots })
}

// The side information decides first, then whether all of the frame's bytes are there.
fn with_header(
    h: FrameHeader,
    frame: &[u8],
    bytes: &mut [u8],
    reservoir: &mut Reservoir,
    numbers: &mut [i32; FRAME_NUMBERS],
) -> Result<Frame, FrameRefusal>
    requires { (reservoir_bytes ≤ length bytes.old) × (reservoir.old.length ≤ reservoir_bytes) × (header_of frame.now ≡ Ok h) }
    ensures { FrameRead bytes.old reservoir.old numbers.old
        (frame_of frame.now (take reservoir.old.length bytes.old)) result reservoir.new bytes.new numbers.new }
{
    let there = frame.len();
    let i = side_under(h, frame).map_err(FrameRefusal::Unread)?;
    if there < frame_length(h) {
        let offset = there as u16;
        return Err(FrameRefusal::Unread(Refusal::AbsentBytes { offset }));
    }
    let from = header_size(h) + side_size(h);
    let to = from + main_size(h);
    with_main(h, i, &frame[from..to], bytes, reservoir, numbers)
}

// One frame, which starts at the first of the bytes. The reservoir, its bytes and the numbers are lent; a refused frame changes
// none of them, except that a frame which reaches too far back still adds its main data for the next ones.
pub fn process_frame(
    frame: &[u8],
    bytes: &mut [u8],
    reservoir: &mut Reservoir,
    numbers: &mut [i32],
) -> Result<Frame, FrameRefusal>
    ensures { FrameRead bytes.old reservoir.old numbers.old
        (frame_call frame.now bytes.old reservoir.old.length (length numbers.old)) result reservoir.new bytes.new
        numbers.new }
{
    if bytes.len() < RESERVOIR_BYTES {
        return Err(FrameRefusal::Unread(Refusal::UnfitMemory));
    }
    if RESERVOIR_BYTES < reservoir.length {
        return Err(FrameRefusal::Unread(Refusal::UnfitMemory));
    }
    let Some(numbers) = numbers.first_chunk_mut::<FRAME_NUMBERS>() else {
        return Err(FrameRefusal::Unread(Refusal::UnfitMemory));
    };
    // `let .. else`, and no `?`, is the form that was asked for by name here (docs/DECISIONS.md, Forms)
    let read = read_frame_header(frame);
    let Ok(h) = read else {
        return Err(FrameRefusal::Unread(read.unwrap_err()));
    };
    with_header(h, frame, bytes, reservoir, numbers)
}

// The slots of a frame under its header and side information, from main data of any length. The n-th slot's numbers are the 576
// from 576 n on; those of a refused slot, and those past the frame's last slot, stay.
pub fn read_slots(
    h: FrameHeader,
    i: SideInfo,
    main: &[u8],
    numbers: &mut [i32],
) -> Result<[SlotAnswer; 4], Refusal>
    ensures { SlotsRead numbers.old (read_slots h i main.now (length numbers.old)) result numbers.new }
{
    let Some(numbers) = numbers.first_chunk_mut::<FRAME_NUMBERS>() else {
        return Err(Refusal::UnfitMemory);
    };
    if is_header(h) & is_side_info(h, i) {
        let slots = slots_from(h, i, main, numbers);
        return Ok(slots);
    }
    Err(Refusal::MadeUpRecord)
}

// What is lent for all frames of a card: the reservoir with its bytes, and the numbers of a frame's slots.
#[derive(Drop)]
pub struct Memory<'a> {
    pub bytes: &'a mut [u8],
    pub reservoir: Reservoir,
    pub numbers: &'a mut [i32],
}

impl<'a> Memory<'a> {
    // The next frame of the card, which starts at the first of the bytes.
    pub fn read(&mut self, frame: &[u8]) -> Result<Frame, FrameRefusal>
        ensures { MemoryRead self.old frame.now result self.new }
    {
        process_frame(
            frame,
            &mut *self.bytes,
            &mut self.reservoir,
            &mut *self.numbers,
        )
    }
}
