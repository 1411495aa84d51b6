// The front end's exports: the static library that C and Rust programs link. Each export is the call of its name in `front_end`, under its clauses.
#![tactic(auto)]

ghost use Rattle.std.specs.Prelude.{◌≡◌, length};
ghost use Rattle.standard.specs.Header.{header_of};
ghost use Rattle.standard.specs.Reservoir.{«emptied»};
ghost use Rattle.front_end.specs.Calls.{FrameDone, frame_step, SlotsDone, slots_step, records_in, ReorderDone, reorder_step, sizes_told};

use front_end::{CallTold, FrameTold, Sizes};

// One frame. `reservoir` is the length that the last frame answered.
#[unsafe(no_mangle)]
pub extern "C" fn front_end_frame(
    frame: &[u8],
    bytes: &mut [u8],
    reservoir: usize,
    numbers: &mut [i32],
    rows: &mut [u16],
) -> FrameTold
    ensures { FrameDone bytes.old reservoir numbers.old rows.old
        (frame_step frame.now bytes.old reservoir (length numbers.old) (length rows.old)) result bytes.new
        numbers.new rows.new }
{
    front_end::front_end_frame(frame, bytes, reservoir, numbers, rows)
}

// The slots of a frame from given main data of any length; of the frame only the header and the side information are read.
#[unsafe(no_mangle)]
pub extern "C" fn front_end_slots(
    frame: &[u8],
    main: &[u8],
    numbers: &mut [i32],
    rows: &mut [u16],
) -> CallTold
    ensures { SlotsDone numbers.old rows.old (records_in frame.now)
        (slots_step frame.now main.now (length numbers.old) (length rows.old)) result numbers.new
        rows.new }
{
    front_end::front_end_slots(frame, main, numbers, rows)
}

// For a gap on the card: the length of a reservoir of which no byte is meant.
#[unsafe(no_mangle)]
pub extern "C" fn front_end_emptied() -> usize
    ensures { result ≡ «emptied».length }
{
    front_end::front_end_emptied()
}

// The reorder of a slot's 576 numbers, by the frame's own record of the slot; only short slots are changed.
#[unsafe(no_mangle)]
pub extern "C" fn front_end_reorder(frame: &[u8], slot: usize, numbers: &mut [i32]) -> CallTold
    ensures { ReorderDone numbers.old (reorder_step frame.now slot numbers.old) result numbers.new }
{
    front_end::front_end_reorder(frame, slot, numbers)
}

// The sizes of a frame, by the frame's first bytes.
#[unsafe(no_mangle)]
pub extern "C" fn front_end_sizes(frame: &[u8]) -> Sizes
    ensures { result ≡ sizes_told (header_of frame.now) }
{
    front_end::front_end_sizes(frame)
}
