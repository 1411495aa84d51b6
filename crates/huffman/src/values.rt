// The numbers that a codeword stands for, with their escapes and signs, out of the word that it was found in. No branch is on a sign, as signs are not to
// be foreseen. What each function owns of the bits (`Owns`) is
// written out in its clause, since each owns another thing.
ghost use Rattle.std.specs.Prelude.{◌≡◌, List, ℕ, ◌+◌, ◌*◌, ◌/◌, ◌%◌, ◌≤◌, ◌<◌, ◌^◌, eqb};
ghost use Rattle.standard.specs.Numbers.{magnitude_of, sign_of, «signed», number_in, two_of};
ghost use Rattle.huffman.specs.Ahead.{Ahead};
ghost use Rattle.huffman.specs.Owns.{Owns};

use standard::{Refusal, Taken};

fn sign_of(minus: bool, value: u32) -> i32
    requires { value < 2 ^ 31 }
    ensures { result ≡ sign_of minus value }
{
    let z = value as i32;
    if minus { -z } else { z }
}

// The bit of a word after the first so many.
fn bit_of(word: u64, gone: usize) -> bool
    requires { gone < 64 }
    ensures { result ≡ eqb ((word * 2 ^ gone) % 2 ^ 64 / 2 ^ 63) 1 }
{
    (word << gone) >> 63 == 1
}

// A magnitude with the sign bit that follows it, unless it is 0.
fn with_sign(word: u64, gone: usize, value: u32) -> Taken<i32>
    requires { (gone < 57) × (value < 2 ^ 31) }
    ensures { ((s : List ℕ) (p : ℕ) → Ahead word s p → Owns («signed» value) (Some result) None s (p + gone) result.used) × (result.used ≤ 1) }
{
    let used = value.min(1) as usize;
    let minus = bit_of(word, gone);
    let z = sign_of(minus, value);
    Taken { value: z, used }
}

// A value of a codeword with its escape. That a width is at most 13 stands in three contracts here: it is a plain number to the loops, and a type for it would be
// made at each codeword.
fn extent(word: u64, gone: usize, width: usize, value: u32) -> Taken<u32>
    requires { (gone + width < 57) × (width ≤ 13) × (value ≤ 15) }
    ensures { ((s : List ℕ) (p : ℕ) → Ahead word s p → Owns (magnitude_of width value) (Some result) None s (p + gone) result.used) × (result.used ≤ width) × (result.value ≤ 8206) }
{
    // two tests: one by `||` costs one to two instructions in a hundred
    if value != 15 {
        return Taken { value, used: 0 };
    }
    if width == 0 {
        return Taken { value, used: 0 };
    }
    let turned = word << gone;
    let more = (turned >> (64 - width)) as u32;
    Taken {
        value: 15 + more,
        used: width,
    }
}

// A value of a codeword with its escape and its sign.
fn number(word: u64, gone: usize, width: usize, value: u32) -> Taken<i32>
    requires { (gone + width < 57) × (width ≤ 13) × (value ≤ 15) }
    ensures { ((s : List ℕ) (p : ℕ) → Ahead word s p → Owns (number_in width value) (Some result) None s (p + gone) result.used) × (result.used ≤ 14) }
{
    let m = extent(word, gone, width, value);
    let n = with_sign(word, gone + m.used, m.value);
    Taken {
        value: n.value,
        used: m.used + n.used,
    }
}

// Two values, the first with its escape and sign before the second's.
pub(crate) fn escaped(word: u64, gone: usize, width: usize, x: u32, y: u32) -> Taken<(i32, i32)>
    requires { (gone ≤ 19) × (width ≤ 13) × (x ≤ 15) × (y ≤ 15) }
    ensures { ((s : List ℕ) (p : ℕ) → Ahead word s p → Owns (two_of width x y) (Ok result) (Err Refusal.PairOverrun) s (p + gone) result.used) × (result.used ≤ 28) }
{
    let a = number(word, gone, width, x);
    let b = number(word, gone + a.used, width, y);
    Taken {
        value: (a.value, b.value),
        used: a.used + b.used,
    }
}

// Two values of which none is 15: they have no escapes.
pub(crate) fn plain(word: u64, gone: usize, x: u32, y: u32) -> Taken<(i32, i32)>
    requires { (gone ≤ 19) × (x < 15) × (y < 15) }
    ensures { ((w : ℕ) (s : List ℕ) (p : ℕ) → Ahead word s p → Owns (two_of w x y) (Ok result) (Err Refusal.PairOverrun) s (p + gone) result.used) × (result.used ≤ 28) }
{
    let a = with_sign(word, gone, x);
    let b = with_sign(word, gone + a.used, y);
    Taken {
        value: (a.value, b.value),
        used: a.used + b.used,
    }
}
