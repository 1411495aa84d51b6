// A pair out of the word that it was found in.
ghost use Rattle.std.specs.Prelude.{◌≡◌, List, ℕ, ◌≤◌};
ghost use Rattle.standard.specs.Codes.{word_of};
ghost use Rattle.standard.specs.Numbers.{pair_of};
ghost use Rattle.huffman.specs.Ahead.{Ahead};
ghost use Rattle.huffman.specs.Found.{TableAs};
ghost use Rattle.huffman.specs.Owns.{Owns};

use crate::find::{FIFTEEN, find};
use crate::values::{escaped, plain};
use standard::{Refusal, Taken};

// The pair that a word starts with, by its table's link and escape width, and how many bits it owns. Most have no value of 15.
pub(crate) fn find_pair(link: usize, width: usize, word: u64) -> Taken<(i32, i32)>
    requires { (table : ℕ) × TableAs table link width }
    ensures { ((table : ℕ) → TableAs table link width → (s : List ℕ) (p : ℕ) → Ahead word s p
        → Owns (pair_of word_of table) (Ok result) (Err Refusal.PairOverrun) s p result.used) × (result.used ≤ 47) }
{
    let f = find(link, word);
    let x = (f.value / 16 % 16) as u32;
    let y = (f.value % 16) as u32;
    // two returns: one for both costs one to three instructions in a hundred
    if f.value / FIFTEEN % 2 == 1 {
        let b = escaped(word, f.used, width, x, y);
        return Taken {
            value: b.value,
            used: f.used + b.used,
        };
    }
    let b = plain(word, f.used, x, y);
    Taken {
        value: b.value,
        used: f.used + b.used,
    }
}
