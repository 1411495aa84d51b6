// Runs the cases of its standard input, a line each, and says what is answered.
//   # words    said as they are
//   m B N      memory lent from here on: B bytes for the reservoir, N numbers
//   l L        the reservoir's stated length
//   w          from here on, the factors of each slot that is read; `w 0`: no longer
//   f Z HEX    a frame: these bytes, then Z zeros
//   z Z HEX    what the program `slots` writes of these bytes
//   i HDR Z HEX    the side information of these bytes, under the header that HDR reads to, and its records
//   s Z HEX    slots from given main data, under the header and side information of the last frame
//   e          the emptying call
//   o S N K    reorder by the record of slot S over the numbers 1 to N; the first K of them are said
//   d S P ..   reorder by the record of slot S over 576 numbers; of each place P, where its number is then
//   r S NAME=V ..    the last frame's side information with other fields in its slot S, which may make it up (big, region0, region1, type, mixed)
//   h          the last frame's header with the rate 8 kHz, which makes it up
// The last two hold up to the next frame, emptying call, or line of the two.
#![tactic(auto)]

mod made_up;
mod program;
mod said;
mod words;

use frame::{process_frame, read_slots};
use input::Held;
use lines::part;
use made_up::{header_by, header_in, side_by};
use program::say_program;
use reorder::reorder;
use reservoir::emptied;
use said::{say, say_count, say_end, say_frame, say_numbers, say_records, say_slots, say_verdict};
use side_info::read_side_info;
use standard::{
    FRAME_NUMBERS, FrameHeader, RESERVOIR_BYTES, Reservoir, SLOT_NUMBERS, SideInfo, SlotRecord,
};
use words::Words;

// The longest frame and more.
const FRAME_BYTES: usize = 2048;

// What the next case goes by: the line of the last frame, and the one that makes up something of it, each empty where there is none; the
// reservoir's stated length; how much memory is lent; and whether factors are asked for.
#[derive(Clone, Copy)]
struct State<'a> {
    frame: &'a [u8],
    made_up: &'a [u8],
    stated: usize,
    bytes: usize,
    numbers: usize,
    factors: bool,
}

// ---- a frame
// f: a frame over as much memory as is lent.
fn run_frame<'a>(rt: &impl Print, line: &'a [u8], bytes: &mut [u8], state: &mut State<'a>) {
    let mut frame = [0u8; FRAME_BYTES];
    let mut numbers = [0i32; FRAME_NUMBERS];
    let b = state.bytes.min(bytes.len());
    let n = state.numbers.min(FRAME_NUMBERS);
    let mut reservoir = Reservoir {
        length: state.stated,
    };
    let frame = Words::of(line).bytes(&mut frame);
    let answer = process_frame(frame, &mut bytes[..b], &mut reservoir, &mut numbers[..n]);
    say_frame(rt, &answer, reservoir.length, &numbers, state.factors);
    state.stated = reservoir.length;
    state.frame = line;
    state.made_up = b"";
}

// ---- calls that take a header and side information
impl<'a> State<'a> {
    fn header(self) -> FrameHeader {
        let mut frame = [0u8; FRAME_BYTES];
        header_by(Words::of(self.frame).bytes(&mut frame), self.made_up)
    }

    fn side(self) -> SideInfo {
        let mut frame = [0u8; FRAME_BYTES];
        side_by(Words::of(self.frame).bytes(&mut frame), self.made_up)
    }

    fn record(self, slot: usize) -> SlotRecord {
        let side = self.side();
        side.slots[slot % 4]
    }
}

// i
fn run_side(rt: &impl Print, line: &[u8]) {
    let mut head = [0u8; 8];
    let mut frame = [0u8; FRAME_BYTES];
    let mut rest = Words::of(&line[2.min(line.len())..]);
    rest.find(|c| c == b' ');
    let word = rest.read();
    let n = Words::of(word).hex(&mut head);
    let h = header_in(&head[..n.min(8)]);
    match read_side_info(h, rest.bytes(&mut frame)) {
        Err(why) => {
            say_verdict(rt, b"side ", Some(why));
            say_end(rt);
        }
        Ok(side) => {
            say_count(rt, b"side begin ", side.main_data_begin as u64);
            say_end(rt);
            say_records(rt, h, &side.slots);
        }
    }
}

// s
fn run_slots(rt: &impl Print, line: &[u8], state: State<'_>) {
    let mut main = [0u8; RESERVOIR_BYTES];
    let mut numbers = [0i32; FRAME_NUMBERS];
    let main = Words::of(line).bytes(&mut main);
    let h = state.header();
    let n = state.numbers.min(FRAME_NUMBERS);
    let answer = read_slots(h, state.side(), main, &mut numbers[..n]);
    say_verdict(rt, b"slots ", answer.err());
    say_end(rt);
    if let Ok(slots) = answer {
        say_slots(rt, h, &slots, &numbers, state.factors);
    }
}

// z
fn run_program(rt: &impl Print, line: &[u8]) {
    let mut card = [0u8; FRAME_BYTES];
    say_program(rt, Words::of(line).bytes(&mut card));
}

// ---- reorder
fn one_more(i: usize) -> i32 {
    ((i % 10000 + 1) as u16) as i32
}

// The numbers 1, 2, 3 and so on.
fn count_up(numbers: &mut [i32]) {
    for (i, n) in numbers.iter_mut().enumerate() {
        *n = one_more(i);
    }
}

// Reorder by the record of a slot, over as many of the numbers as are lent.
fn run_reorder(rt: &impl Print, state: State<'_>, slot: usize, numbers: &mut [i32], lent: usize) {
    let n = lent.min(numbers.len());
    let answer = reorder(state.header(), state.record(slot), &mut numbers[..n]);
    say_verdict(rt, b"reorder ", answer.err());
    say(rt, b":");
}

// o
fn run_counted(rt: &impl Print, line: &[u8], state: State<'_>) {
    let mut words = Words::of(line);
    let slot = words.number();
    let lent = words.number();
    let shown = words.number();
    let mut numbers = [0i32; 1024];
    count_up(&mut numbers);
    run_reorder(rt, state, slot, &mut numbers, lent);
    say_numbers(rt, part(&numbers, 0, shown));
    say_end(rt);
}

// d: of each place, where the number that was there is now.
fn run_placed(rt: &impl Print, line: &[u8], state: State<'_>) {
    let mut words = Words::of(line);
    let slot = words.number();
    let mut numbers = [0i32; SLOT_NUMBERS];
    count_up(&mut numbers);
    run_reorder(rt, state, slot, &mut numbers, SLOT_NUMBERS);
    for _ in 0..SLOT_NUMBERS {
        if words.rest().is_empty() {
            break;
        }
        let place = words.number();
        let n = one_more(place);
        let now = numbers.iter().position(|m| *m == n).unwrap_or(SLOT_NUMBERS);
        say_count(rt, b" ", place as u64);
        say_count(rt, b">", now as u64);
    }
    say_end(rt);
}

// ---- a line
// e
fn run_emptied(rt: &impl Print, state: &mut State<'_>) {
    let r = emptied();
    say_count(rt, b"reservoir ", r.length as u64);
    say_end(rt);
    state.stated = r.length;
    state.made_up = b"";
}

// m, l
fn set_sizes(line: &[u8], state: &mut State<'_>) {
    let mut words = Words::of(line);
    let first = words.number();
    if let [b'l', ..] = line {
        state.stated = first;
    } else {
        state.bytes = first;
        state.numbers = words.number();
    }
}

fn run_line<'a>(rt: &impl Print, line: &'a [u8], bytes: &mut [u8], state: &mut State<'a>) {
    match line {
        [b'#', ..] => {
            say(rt, line);
            say_end(rt);
        }
        [b'f', ..] => run_frame(rt, line, bytes, state),
        [b's', ..] => run_slots(rt, line, *state),
        [b'i', ..] => run_side(rt, line),
        [b'z', ..] => run_program(rt, line),
        [b'o', ..] => run_counted(rt, line, *state),
        [b'd', ..] => run_placed(rt, line, *state),
        [b'e', ..] => run_emptied(rt, state),
        [b'm' | b'l', ..] => set_sizes(line, state),
        [b'w', ..] => state.factors = line.len() < 2,
        [b'r' | b'h', ..] => state.made_up = line,
        _ => {}
    }
}

fn main(rt: HostRuntime) {
    let mut text = [0u8; 65536];
    let mut bytes = [0u8; RESERVOIR_BYTES];
    let mut reader = rt.stdin();
    let mut held = Held::blank();
    held.fill(&mut reader, &mut text);
    let mut state = State {
        frame: b"",
        made_up: b"",
        stated: 0,
        bytes: RESERVOIR_BYTES,
        numbers: FRAME_NUMBERS,
        factors: false,
    };
    for line in held.unread(&text).split(|c| *c == b'\n') {
        run_line(&rt, line, &mut bytes, &mut state);
    }
}
