// One slot, from its own bits of the main data.
ghost use Rattle.std.specs.Prelude.{◌≡◌, ◌&&◌, ◌+◌, ◌*◌, ◌≤◌, ◌<◌, length, is_none};
ghost use Rattle.standard.specs.Sizes.{per_slot, most_big_values};
ghost use Rattle.standard.specs.Bits.{bits};
ghost use Rattle.standard.specs.Slots.{any_of, slot_told, slot_in, slot_of, numbers_after};
ghost use Rattle.frame.specs.Slot.{SlotRead, shared_of};

use huffman::read_huffman;
use scale_factors::read_scale_factors;
use standard::{Refusal, Setting, SlotAnswer, SlotRecord};

// Whether a sharing bit is set and the slot that it shares with was refused.
fn share_lost(shares: [bool; 4], lost: bool) -> bool
    ensures { result ≡ any_of shares && lost }
{
    // by `contains`: tried, and what it promises was not proved to be the definition's fold
    (shares[0] | shares[1] | shares[2] | shares[3]) & lost
}

// A slot whose bits are all there.
fn read_whole(
    g: Setting,
    r: SlotRecord,
    old: Option<[u8; 22]>,
    main: &[u8],
    at: u32,
    numbers: &mut [i32],
) -> SlotAnswer
    requires { (length numbers.old ≡ per_slot) × (r.big_values ≤ most_big_values) × (r.part2_3_length < 4096) × (at ≤ 16384) }
    ensures { SlotRead (slot_of g r (is_none old) (shared_of old) (bits main.now at r.part2_3_length)) numbers.old result numbers.new }
{
    let length = r.part2_3_length as u32;
    let f = read_scale_factors(g, r, old.unwrap_or([0; 22]), main, at);
    let part2 = f.bits;
    if length < part2 {
        return SlotAnswer::NotRead(Refusal::FactorOverrun);
    }
    if share_lost(g.shares, old.is_none()) {
        return SlotAnswer::NotRead(Refusal::LostShare);
    }
    match read_huffman(g.rate, r, main, at + part2, at + length, numbers) {
        Err(why) => SlotAnswer::NotRead(why),
        Ok(count) => {
            let long = f.long;
            let short = f.short;
            SlotAnswer::Read { count, long, short }
        }
    }
}

// A slot from a bit place of the main data on, into its own 576 numbers.
pub(crate) fn read_slot(
    g: Setting,
    r: SlotRecord,
    old: Option<[u8; 22]>,
    main: &[u8],
    at: u32,
    numbers: &mut [i32],
) -> SlotAnswer
    requires { (length numbers.old ≡ per_slot) × (r.big_values ≤ most_big_values) × (r.part2_3_length < 4096) × (at ≤ 16384) }
    ensures { SlotRead (slot_in main.now at g r (is_none old) (shared_of old)) numbers.old result numbers.new }
{
    let end = at as usize + r.part2_3_length as usize;
    if main.len() < (end + 7) / 8 {
        return SlotAnswer::NotRead(Refusal::MissingBits);
    }
    read_whole(g, r, old, main, at, numbers)
}
