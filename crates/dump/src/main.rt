// Everything that the frame step tells of a card, line by line, to be held to another reader's: oracle/README.md has the form. Words
// as arguments: `on`, go on after a refused frame; `cards`, the input is many cards, each after four bytes that say how long it is;
// or, alone, `replay`: read the files of data/ and write one line for each.
#![tactic(auto)]

mod files;
mod rows;
mod walk;

use crate::files::replay;
use crate::walk::{Output, Words, walk_over};
use std::rt::Env;

fn is_word(rt: &impl Env, i: usize, word: &[u8]) -> bool {
    let mut said = [0u8; 4096];
    match rt.arg(i, &mut said) {
        Ok(n) => &said[..n] == word,
        Err(_) => false,
    }
}

// Whether the first or the second argument is the word.
fn is_told(rt: &impl Env, word: &[u8]) -> bool {
    is_word(rt, 1, word) || is_word(rt, 2, word)
}

fn main(rt: HostRuntime) {
    if is_word(&rt, 1, b"replay") {
        replay(&rt);
        return;
    }
    let words = Words {
        on: is_told(&rt, b"on"),
        many: is_told(&rt, b"cards"),
    };
    let mut reader = rt.stdin();
    walk_over(&rt, &mut reader, words, Output::Written);
    let _ = rt.write_all(b"end\n");
}
