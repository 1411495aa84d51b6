// What the program `slots` writes of a card that is held whole: its lines, from an empty reservoir to the end or the first refusal.
use crate::said::{say, say_slots, say_text};
use derived::why_of;
use frame::process_frame;
use input::Held;
use lines::Text;
use reservoir::emptied;
use standard::{FRAME_NUMBERS, RESERVOIR_BYTES, Reservoir};

// The n-th frame; answers its length, if it was accepted.
fn say_frame(
    rt: &impl Print,
    frame: &[u8],
    bytes: &mut [u8],
    reservoir: &mut Reservoir,
    n: u64,
) -> Option<usize> {
    let mut out = [0u8; 4096];
    let mut text = Text {
        bytes: &mut out,
        at: 0,
    };
    let mut numbers = [0i32; FRAME_NUMBERS];
    match process_frame(frame, bytes, reservoir, &mut numbers) {
        Ok(read) => {
            let head = read.head;
            text.frame(n, head.length as u64);
            say_text(rt, &text);
            say_slots(rt, head.header, &read.slots, &numbers, false);
            Some(head.length)
        }
        Err(refusal) => {
            text.refused(n, why_of(refusal));
            say_text(rt, &text);
            None
        }
    }
}

// Answers how many frames were accepted. A frame has a byte at least, so there are no more frames than bytes.
fn say_frames(rt: &impl Print, card: &[u8], bytes: &mut [u8]) -> u64 {
    let mut held = Held {
        from: 0,
        end: card.len(),
    };
    let mut reservoir = emptied();
    for n in 0..card.len() as u64 {
        let frame = held.unread(card);
        if frame.is_empty() {
            return n;
        }
        let Some(length) = say_frame(rt, frame, &mut *bytes, &mut reservoir, n + 1) else {
            return n;
        };
        held = held.taken(length);
    }
    card.len() as u64
}

// All that the program `slots` writes of a card.
pub(crate) fn say_program(rt: &impl Print, card: &[u8]) {
    let mut bytes = [0u8; RESERVOIR_BYTES];
    let mut out = [0u8; 64];
    say(rt, b"front end\n");
    let frames = say_frames(rt, card, &mut bytes);
    let mut text = Text {
        bytes: &mut out,
        at: 0,
    };
    text.end(frames);
    say_text(rt, &text);
}
