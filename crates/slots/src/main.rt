// Reads frames from standard input, from an empty reservoir, and writes what is in them, until the input ends or a frame is refused.
#![tactic(auto)]

use derived::{is_two, why_of};
use frame::Memory;
use input::{Held, Input, Source};
use lines::Text;
use reservoir::emptied;
use standard::{FRAME_NUMBERS, Frame, FrameRefusal, RESERVOIR_BYTES, Refusal};
use std::fmt;
use std::io::Read;

// No frame is longer, so with so many bytes unread the next one is whole.
const LONGEST: usize = 2048;

// A frame's lines take less than a quarter of the lent bytes: four slots of at most 576 numbers of five characters and a blank.
const FULL: usize = 49152;

// More frames than any card has; a loop must end.
const MOST: u64 = u64::MAX;

// What ends the run before the card's end.
#[derive(Clone, Copy)]
enum Failure {
    Unread,
    Unwritten,
}

impl fmt::Display for Failure {
    fn fmt<W: fmt::Write>(&self, f: &mut fmt::Formatter<W>) -> fmt::Result {
        match self {
            Failure::Unread => write!(f, "slots: the input could not be read"),
            Failure::Unwritten => write!(f, "slots: the output could not be written"),
        }
    }
}

// Writes the text so far, and begins it anew.
fn write(rt: &impl Print, text: &mut Text<'_>) -> Result<(), Failure> {
    let written = rt.write_all(text.said());
    text.at = 0;
    written.map_err(|_| Failure::Unwritten)
}

// A frame's lines, written out where the lent bytes might not hold those of the next one too.
fn accepted(
    rt: &impl Print,
    text: &mut Text<'_>,
    n: u64,
    frame: &Frame,
    numbers: &[i32],
) -> Result<(), Failure> {
    let head = frame.head;
    text.frame(n, head.length as u64);
    text.slots(is_two(head.header.channels), &frame.slots, numbers);
    if text.at < FULL {
        return Ok(());
    }
    write(rt, text)
}

// The n-th frame; answers whether there may be one more.
fn step<R: Read>(
    rt: &impl Print,
    card: &mut Source<'_, R>,
    memory: &mut Memory<'_>,
    text: &mut Text<'_>,
    n: u64,
) -> Result<bool, Failure> {
    card.refill(LONGEST);
    // Bytes that are absent because they could not be read are no refusal.
    let failed = matches!(card.input, Input::Failed);
    let frame = card.unread();
    if frame.is_empty() {
        return if failed {
            Err(Failure::Unread)
        } else {
            Ok(false)
        };
    }
    match memory.read(frame) {
        Ok(read) => {
            accepted(rt, text, n, &read, memory.numbers)?;
            card.held = card.held.taken(read.head.length);
            Ok(true)
        }
        Err(FrameRefusal::Unread(Refusal::AbsentBytes { .. })) if failed => Err(Failure::Unread),
        Err(refusal) => {
            text.refused(n, why_of(refusal));
            Ok(false)
        }
    }
}

// All frames, and the last line with their number.
fn walk<R: Read>(
    rt: &impl Print,
    card: &mut Source<'_, R>,
    memory: &mut Memory<'_>,
    text: &mut Text<'_>,
) -> Result<(), Failure> {
    text.put(b"front end\n");
    for n in 0..MOST {
        if !step(rt, card, memory, text, n + 1)? {
            text.end(n);
            return write(rt, text);
        }
    }
    Ok(())
}

fn main(rt: HostRuntime) {
    let mut piece = [0u8; 65536];
    let mut bytes = [0u8; RESERVOIR_BYTES];
    let mut numbers = [0i32; FRAME_NUMBERS];
    let mut out = [0u8; 65536];
    let mut reader = rt.stdin();
    let mut card = Source {
        reader: &mut reader,
        piece: &mut piece,
        held: Held::blank(),
        input: Input::Open,
    };
    let mut memory = Memory {
        bytes: &mut bytes,
        reservoir: emptied(),
        numbers: &mut numbers,
    };
    let mut text = Text {
        bytes: &mut out,
        at: 0,
    };
    if let Err(failure) = walk(&rt, &mut card, &mut memory, &mut text) {
        // What was read up to a failure is written; that is no end of the card.
        if let Failure::Unread = failure {
            let _ = write(&rt, &mut text);
        }
        let _ = eprintln!(rt; "{failure}");
    }
}
