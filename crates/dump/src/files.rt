// The replay: the files card-00, card-01 and so on, from the first to the last that is there. The text that would be written of each,
// with going on after refusals, is summed up, and one line tells the file's tries and that sum. What they must be was made by the
// Rust: oracle/make-replay.
ghost use Rattle.std.specs.Prelude.{◌<◌};
ghost use Rattle.std.specs.Str.{IsUtf8};

use crate::walk::{Output, Words, walk_over};
use std::fs::File;
use std::io::Read;
use std::rt::Files;

// Two digits number the files.
const FILES: usize = 100;

fn digit(n: usize) -> u8
    ensures { result < 58 }
{
    48 + (n % 10) as u8
}

fn name_of(n: usize) -> [u8; 7]
    ensures { IsUtf8 result }
{
    [b'c', b'a', b'r', b'd', b'-', digit(n / 10), digit(n)]
}

fn say_number(rt: &impl Print, word: &[u8], n: u64) {
    let _ = rt.write_all(word);
    let _ = rt.print(n);
}

// One file, which is open; answers its tries.
fn replay_file<R: Read>(rt: &impl Print, name: [u8; 7], reader: &mut R) -> u64 {
    let words = Words {
        on: true,
        many: false,
    };
    let (tries, output) = walk_over(rt, reader, words, Output::Summed(0));
    let _ = rt.write_all(&name);
    say_number(rt, b" tries ", tries);
    if let Output::Summed(sum) = output {
        say_number(rt, b" sum ", sum);
    }
    let _ = rt.write_all(b"\n");
    tries
}

// The file of a name, where there is one that can be read.
fn opened<F: Files>(rt: &F, name: [u8; 7]) -> Option<F::File>
    requires { IsUtf8 name }
{
    let path = str::from_utf8(&name).unwrap();
    File::open(rt, path).ok()
}

pub(crate) fn replay(rt: &(impl Files + Print)) {
    let mut files = 0u64;
    let mut tries = 0u64;
    for n in 0..FILES {
        let name = name_of(n);
        let Some(mut file) = opened(rt, name) else {
            break;
        };
        files = files.wrapping_add(1);
        tries = tries.wrapping_add(replay_file(rt, name, &mut file));
    }
    say_number(rt, b"files ", files);
    say_number(rt, b" tries ", tries);
    let _ = rt.write_all(b"\n");
}
