// The slots of a frame in turn.
ghost use Rattle.std.specs.Prelude.{◌≡◌, true, map, ◌≤◌, ◌<◌, length, get_or};
ghost use Rattle.standard.specs.SideInfo.{is_side};
ghost use Rattle.standard.specs.Slots.{slots_of, slots_told, numbers_from};
ghost use Rattle.frame.specs.Slot.{mate_in};

use crate::answers::lacking_slots;
use crate::setting::setting_of;
use crate::slot::read_slot;
use derived::{channel_count, granules};
use standard::{FRAME_NUMBERS, FrameHeader, SLOT_NUMBERS, SideInfo, SlotAnswer};

// What a slot may share with: the long factors of its channel's granule 0 slot, or none where that slot was refused. A slot of granule 0
// shares with none, and has zeros.
fn mate_of(answers: [SlotAnswer; 4], k: usize, channels: usize) -> Option<[u8; 22]>
    requires { (k < 4) × (0 < channels) }
    ensures { result ≡ mate_in channels answers k }
{
    if k < channels {
        return Some([0; 22]);
    }
    match answers[k - channels] {
        SlotAnswer::Read { long, .. } => Some(long),
        SlotAnswer::NotRead(_) => None,
        SlotAnswer::Lacking => Some([0; 22]),
    }
}

#[tactic(auto, using(crate::proofs::Turns::four_at_most))]
pub(crate) fn slots_from(
    h: FrameHeader,
    i: SideInfo,
    main: &[u8],
    numbers: &mut [i32; FRAME_NUMBERS],
) -> [SlotAnswer; 4]
    requires { is_side h i ≡ true }
    ensures { (result ≡ slots_told (slots_of h i main.now))
        × (numbers.new ≡ numbers_from 0 (slots_of h i main.now) numbers.old) }
{
    let channels = channel_count(h);
    let n = granules(h) * channels;
    let mut answers = lacking_slots();
    let mut at = 0u32;
    // by number: a slot's own numbers are lent in turn, and of what `chunks_mut` lends a proof knows no element afterwards
    for k in 0..n {
        let r = i.slots[k];
        let old = mate_of(answers, k, channels);
        let g = setting_of(h, i, k, r);
        let from = SLOT_NUMBERS * k;
        let end = from + SLOT_NUMBERS;
        answers[k] = read_slot(g, r, old, main, at, &mut numbers[from..end]);
        at += r.part2_3_length as u32;
    }
    answers
}
