// The walk over the input: from try to try of a card, and from card to card.
use crate::rows::{put_answer, put_card};
use fields::step;
use frame::Memory;
use input::{Held, Input, Source};
use lines::Text;
use reservoir::emptied;
use standard::{FRAME_NUMBERS, Frame, FrameRefusal, RESERVOIR_BYTES};
use std::io::Read;

// The longest frame and more: what a try must find held, unless the input has ended.
const AHEAD: usize = 8192;

// Where the text is written out: what one try prints finds room after it.
const FULL: usize = 32768;

// The largest prime below 2 ^ 32.
const PRIME: u64 = 4_294_967_291;

// More turns than any input takes: nothing says that an input ends, so the turns are counted.
const TURNS: u64 = u64::MAX;

// What the program was told: to go on after a refused frame, and that the input is many cards.
#[derive(Clone, Copy)]
pub(crate) struct Words {
    pub(crate) on: bool,
    pub(crate) many: bool,
}

// What becomes of the text: it is written out, or summed up.
#[derive(Clone, Copy)]
pub(crate) enum Output {
    Written,
    Summed(u64),
}

// The present card: the bytes that it still has, the place in it, and whether the rest is passed over.
#[derive(Clone, Copy)]
struct Card {
    left: usize,
    place: u64,
    passed: bool,
}

// Before the first card.
const NO_CARD: Card = Card {
    left: 0,
    place: 0,
    passed: false,
};

// The text that is not written out yet, and what becomes of it.
#[derive(Drop)]
struct Page<'a> {
    text: Text<'a>,
    output: Output,
}

impl<'a> Page<'a> {
    // All of the text written out, or summed up.
    fn flush(&mut self, rt: &impl Print) {
        let output = self.output;
        let said = self.text.said();
        match output {
            Output::Written => {
                let _ = rt.write_all(said);
            }
            Output::Summed(before) => self.output = Output::Summed(summed(before, said)),
        }
        self.text.at = 0;
    }
}

// A text's sum, a number of 32 bits, from the sum of what stood before it.
fn summed(before: u64, text: &[u8]) -> u64 {
    text.iter().fold(before, |sum, byte| {
        (sum % PRIME * 65_599 + u64::from(*byte) + 1) % PRIME
    })
}

// Where the walk is: the input, the present card, the text, the next card's number, and how many tries there were.
#[derive(Drop)]
struct Walk<'a, R> {
    source: Source<'a, R>,
    card: Card,
    page: Page<'a>,
    number: u64,
    tries: u64,
}

impl<'a, R: Read> Walk<'a, R> {
    // Reads on, where too little is ahead. That a read failed is said once: from then on the input is not open.
    fn refill(&mut self, rt: &impl Print) {
        let open = matches!(self.source.input, Input::Open);
        self.source.refill(AHEAD);
        if open && matches!(self.source.input, Input::Failed) {
            let _ = rt.write_all(b"unreadable\n");
        }
    }

    // A card of some bytes begins, with an empty reservoir.
    fn open(&mut self, memory: &mut Memory<'_>, left: usize) {
        self.card = Card { left, ..NO_CARD };
        memory.reservoir = emptied();
        put_card(&mut self.page.text, self.number);
        self.number = self.number.wrapping_add(1);
    }

    // The next of many cards, after four bytes that say how long it is; or the only one, of which the input tells the end.
    fn begin(&mut self, memory: &mut Memory<'_>, many: bool) -> bool {
        if !many {
            let first = self.number == 0;
            if first {
                self.open(memory, usize::MAX);
            }
            return first;
        }
        let Some(size) = self.source.unread().first_chunk::<4>() else {
            return false;
        };
        let left = u32::from_be_bytes(*size) as usize;
        self.source.held = self.source.held.taken(4);
        self.open(memory, left);
        true
    }

    // n bytes further on the card.
    fn go(&mut self, n: usize) {
        self.source.held = self.source.held.taken(n);
        self.card.left = self.card.left.saturating_sub(n);
        self.card.place = self.card.place.wrapping_add(n as u64);
    }

    // The bytes that are held of the present card are passed over. Answers whether there was any.
    fn pass(&mut self) -> bool {
        let n = self.source.unread().len().min(self.card.left);
        self.go(n);
        0 < n
    }

    // One try of the frame step, if there are bytes to try it on. The rest of the card is passed over after a refusal, unless the walk is
    // to go on.
    fn attempt(&mut self, memory: &mut Memory<'_>, on: bool) -> bool {
        let unread = self.source.unread();
        let frame = &unread[..self.card.left.min(unread.len())];
        if frame.is_empty() {
            return false;
        }
        let answer = memory.read(frame);
        let kept = memory.reservoir.length as u64;
        let place = self.card.place;
        put_answer(&mut self.page.text, place, &answer, kept, memory.numbers);
        self.card.passed = answer.is_err() && !on;
        self.tries = self.tries.wrapping_add(1);
        self.go(step(&answer));
        true
    }

    // Input and text are seen to; then a card begins, or bytes are passed over, or a frame is tried. Answers whether anything was left to do.
    fn turn(&mut self, rt: &impl Print, memory: &mut Memory<'_>, words: Words) -> bool {
        self.refill(rt);
        if self.card.left == 0 {
            return self.begin(memory, words.many);
        }
        if self.card.passed {
            return self.pass();
        }
        if FULL < self.page.text.at {
            self.page.flush(rt);
            return true;
        }
        self.attempt(memory, words.on)
    }

    // Turn after turn, until nothing is left to do.
    fn run(&mut self, rt: &impl Print, memory: &mut Memory<'_>, words: Words) {
        for _ in 0..TURNS {
            if !self.turn(rt, memory, words) {
                break;
            }
        }
        self.page.flush(rt);
    }
}

// Walks over an input; answers the number of tries and what became of the text.
pub(crate) fn walk_over<R: Read>(
    rt: &impl Print,
    reader: &mut R,
    words: Words,
    output: Output,
) -> (u64, Output) {
    let mut out = [0u8; 65536];
    let mut piece = [0u8; 65536];
    let mut bytes = [0u8; RESERVOIR_BYTES];
    let mut numbers = [0i32; FRAME_NUMBERS];
    let mut memory = Memory {
        bytes: &mut bytes,
        reservoir: emptied(),
        numbers: &mut numbers,
    };
    let mut w = Walk {
        source: Source {
            reader,
            piece: &mut piece,
            held: Held::blank(),
            input: Input::Open,
        },
        card: NO_CARD,
        page: Page {
            text: Text {
                bytes: &mut out,
                at: 0,
            },
            output,
        },
        number: 0,
        tries: 0,
    };
    w.run(rt, &mut memory, words);
    (w.tries, w.page.output)
}
