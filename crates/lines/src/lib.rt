// Text put in lent bytes, behind what was put there before; and the lines of the program `slots` (docs/RULES.md). What finds no room is left out.
#![tactic(auto)]

mod decimal;

ghost use Rattle.std.specs.Prelude.{◌≡◌, ◌++◌, ◌/◌, ◌%◌, ◌<◌, take, drop};
ghost use Rattle.standard.specs.Refusals.{number_of};
ghost use Rattle.standard.specs.Told.{pick};
ghost use Rattle.lines.specs.Adds.{Adds};
ghost use Rattle.lines.specs.Text.{decimal_of, signed_of};
ghost use Rattle.lines.specs.Said.{frame_line, refused_line, end_line, slot_start, numbers_text, read_end, not_read_end, slot_line, slot_lines};

use crate::decimal::{DIGITS, spell};
use derived::number_of;
use standard::{Refusal, SLOT_NUMBERS, SlotAnswer};

// Lent bytes, and the place where the next text goes.
#[derive(Drop)]
pub struct Text<'a> {
    pub bytes: &'a mut [u8],
    pub at: usize,
}

impl<'a> Text<'a> {
    // The text so far, as far as it is in the lent bytes.
    pub fn said(&self) -> &[u8]
        ensures { result.now ≡ take self.now.at self.now.bytes.now }
    {
        &self.bytes[..self.at.min(self.bytes.len())]
    }

    // Puts bytes.
    pub fn put(&mut self, bytes: &[u8])
        ensures { Adds self.old bytes.now self.new }
    {
        self.at = lent_bytes::put(&mut *self.bytes, self.at, bytes);
    }

    // Puts the decimal digits of a number.
    pub fn number(&mut self, n: u64)
        ensures { Adds self.old (decimal_of n) self.new }
    {
        let mut digits = [0u8; DIGITS];
        let from = spell(n, &mut digits);
        self.put(&digits[from..]);
    }

    // Puts a number, with a minus sign where it is below 0.
    pub fn signed(&mut self, n: i32)
        ensures { Adds self.old (signed_of n) self.new }
    {
        if n < 0 {
            self.put(b"-");
        }
        self.number(n.unsigned_abs() as u64);
    }

    // A number between two words.
    fn one(&mut self, before: &[u8], n: u64, after: &[u8])
        ensures { Adds self.old (before.now ++ decimal_of n ++ after.now) self.new }
    {
        self.put(before);
        self.number(n);
        self.put(after);
    }

    // Two numbers between three words.
    fn two(&mut self, before: &[u8], n: u64, between: &[u8], m: u64, after: &[u8])
        ensures { Adds self.old (before.now ++ decimal_of n ++ between.now ++ decimal_of m ++ after.now) self.new }
    {
        self.one(before, n, between);
        self.number(m);
        self.put(after);
    }

    // A frame that was accepted.
    #[tactic(auto, unfolding(crate::specs::Said::frame_line))]
    pub fn frame(&mut self, n: u64, length: u64)
        ensures { Adds self.old (frame_line n length) self.new }
    {
        self.two(b"frame ", n, b" length ", length, b"\n");
    }

    // A frame that was refused.
    #[tactic(auto, unfolding(crate::specs::Said::refused_line))]
    pub fn refused(&mut self, n: u64, why: Refusal)
        ensures { Adds self.old (refused_line n (number_of why)) self.new }
    {
        let k = number_of(why) as u64;
        self.two(b"frame ", n, b" refused ", k, b"\n");
    }

    // The end, with the number of frames that were accepted.
    #[tactic(auto, unfolding(crate::specs::Said::end_line))]
    pub fn end(&mut self, n: u64)
        ensures { Adds self.old (end_line n) self.new }
    {
        self.one(b"end ", n, b"\n");
    }

    // Numbers, each after a blank.
    pub fn numbers(&mut self, numbers: &[i32])
        ensures { Adds self.old (numbers_text numbers.now) self.new }
    {
        for n in numbers {
            self.put(b" ");
            self.signed(*n);
        }
    }

    // The four slots of a frame's answer, of which those that the frame lacks print nothing.
    pub fn slots(&mut self, two: bool, slots: &[SlotAnswer; 4], numbers: &[i32])
        ensures { Adds self.old (slot_lines two 0 slots.now numbers.now) self.new }
    {
        for (n, slot) in slots.iter().enumerate() {
            self.slot(two, n, slot, numbers);
        }
    }

    // Slot n of a frame with two channels, or with one. Its numbers are those from 576 n on, up to its count.
    fn slot(&mut self, two: bool, n: usize, slot: &SlotAnswer, numbers: &[i32])
        requires { n < 4 }
        ensures { Adds self.old (slot_line two n slot.now numbers.now) self.new }
    {
        match *slot {
            SlotAnswer::Lacking => {}
            SlotAnswer::NotRead(why) => {
                self.start(two, n);
                self.not_read(why);
            }
            SlotAnswer::Read { count, .. } => {
                self.start(two, n);
                self.read(count, part(numbers, SLOT_NUMBERS * n, count as usize));
            }
        }
    }

    // Which granule and channel slot n is of.
    fn start(&mut self, two: bool, n: usize)
        ensures { Adds self.old (slot_start (pick two (n / 2) n) (pick two (n % 2) 0)) self.new }
    {
        let (granule, channel) = if two { (n / 2, n % 2) } else { (n, 0) };
        self.two(b"slot ", granule as u64, b" ", channel as u64, b" ");
    }

    #[tactic(auto, unfolding(crate::specs::Said::read_end))]
    fn read(&mut self, count: u16, numbers: &[i32])
        ensures { Adds self.old (read_end count numbers.now) self.new }
    {
        self.one(b"count ", count as u64, b":");
        self.numbers(numbers);
        self.put(b"\n");
    }

    #[tactic(auto, unfolding(crate::specs::Said::not_read_end))]
    fn not_read(&mut self, why: Refusal)
        ensures { Adds self.old (not_read_end (number_of why)) self.new }
    {
        self.one(b"refused ", number_of(why) as u64, b"\n");
    }
}

// The numbers from a place on, at most n of them.
pub fn part(numbers: &[i32], from: usize, n: usize) -> &[i32]
    ensures { result.now ≡ take n (drop from numbers.now) }
{
    let rest = &numbers[from.min(numbers.len())..];
    &rest[..n.min(rest.len())]
}
