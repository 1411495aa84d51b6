// The short-block reorder: window by window before it, frequency by frequency after it.
#![tactic(auto)]

ghost use Rattle.std.specs.Prelude.{◌≡◌, ◌+◌, ◌*◌, ◌≤◌, length};
ghost use Rattle.std.proofs.Math.Seq.{paste};
ghost use Rattle.standard.specs.Sizes.{per_slot};
ghost use Rattle.standard.specs.Refusals.{Answers};
ghost use Rattle.standard.specs.Reorder.{first_short, reordered_from, reorder_of, band_numbers};

use derived::shape_of;
use header::is_header;
use record_check::is_record;
use standard::{FrameHeader, Refusal, SLOT_NUMBERS, SampleRate, Shape, SlotRecord};
use tables::bands::short_start;

// A band of width w from a place on, out of the numbers before the reorder.
fn reorder_band(old: &[i32; SLOT_NUMBERS], numbers: &mut [i32; SLOT_NUMBERS], from: usize, w: usize)
    requires { from + 3 * w ≤ per_slot }
    ensures { numbers.new ≡ paste numbers.old from (band_numbers from w old.now) (3 * w) }
{
    // by number: of what `chunks_mut` lends a proof knows no element afterwards
    for j in 0..w {
        let at = from + 3 * j;
        numbers[at] = old[from + j];
        numbers[at + 1] = old[from + w + j];
        numbers[at + 2] = old[from + 2 * w + j];
    }
}

// The numbers of a slot, band by band from its k-th short band on.
fn reorder_from(rate: SampleRate, first: usize, numbers: &mut [i32; SLOT_NUMBERS])
    requires { first ≤ 13 }
    ensures { numbers.new ≡ reordered_from rate first numbers.old }
{
    let old = *numbers;
    for k in first..13 {
        let b = usize::from(short_start(rate, k));
        let c = usize::from(short_start(rate, k + 1));
        reorder_band(&old, numbers, 3 * b, c - b);
    }
}

// The first of the thirteen bands that is a short one: a place, and a rule of its own for each shape.
fn first_short(shape: Shape) -> usize
    ensures { result ≡ first_short shape }
{
    match shape {
        Shape::AllLong => 13,
        Shape::AllShort => 0,
        Shape::LongThenShort => 3,
    }
}

// The 576 numbers of a slot after its record: those of its short bands in their new order, any others as they are. Numbers past them
// stay.
pub fn reorder(h: FrameHeader, r: SlotRecord, numbers: &mut [i32]) -> Result<(), Refusal>
    ensures { Answers numbers.old result numbers.new (reorder_of h r numbers.old) }
{
    let Some(slot) = numbers.first_chunk_mut::<SLOT_NUMBERS>() else {
        return Err(Refusal::UnfitMemory);
    };
    if is_header(h) && is_record(h, r) {
        let first = first_short(shape_of(r.block_type, r.mixed_block_flag));
        reorder_from(h.rate, first, slot);
        return Ok(());
    }
    Err(Refusal::MadeUpRecord)
}
