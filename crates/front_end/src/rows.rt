// The rows of numbers that tell of slots: for each slot what became of it, its count, its factors, and what its numbers are scaled by.
ghost use Rattle.std.specs.Prelude.{◌≡◌, ◌+◌, ◌≤◌, List, ℕ, ◌++◌, length};
ghost use Rattle.std.proofs.Math.Seq.{paste};
ghost use Rattle.front_end.specs.Calls.{slot_row, rows_from};

use derived::number_of;
use fields::scale_values;
use standard::{SlotAnswer, SlotRecord};

// Where in a row the long factors begin, 22 numbers; the short ones, 39; and what the slot's numbers are scaled by, 8.
const LONG_AT: usize = 2;

const SHORT_AT: usize = LONG_AT + 22;

const SCALE_AT: usize = SHORT_AT + 39;

// Numbers in a row, and in the rows of four slots, which a reader lends at least.
const ROW: usize = SCALE_AT + 8;

pub(crate) const ROWS: usize = 4 * ROW;

// Says that the frame has no such slot; no refusal has this number.
const LACKING: u16 = 255;

fn put_bytes(row: &mut [u16; ROW], at: usize, bytes: &[u8])
    requires { at + length bytes.now ≤ length row.old }
    ensures { row.new ≡ paste row.old at bytes.now (length bytes.now) }
{
    for i in 0..bytes.len() {
        row[at + i] = u16::from(bytes[i]);
    }
}

// A slot's row; where nothing was read its count and its factors are zeros.
fn row_of(r: SlotRecord, a: SlotAnswer) -> [u16; ROW]
    ensures { result ≡ slot_row r a }
{
    let mut row = [0; ROW];
    match a {
        SlotAnswer::Read { count, long, short } => {
            row[1] = count;
            put_bytes(&mut row, LONG_AT, &long);
            put_bytes(&mut row, SHORT_AT, &short);
        }
        SlotAnswer::NotRead(why) => row[0] = u16::from(number_of(why)),
        SlotAnswer::Lacking => row[0] = LACKING,
    }
    put_bytes(&mut row, SCALE_AT, &scale_values(r));
    row
}

// The rows of four slots, whatever stands after them.
pub(crate) fn put_rows(rows: &mut [u16; ROWS], records: [SlotRecord; 4], slots: [SlotAnswer; 4])
    ensures { (rest : List ℕ) → rows.new ++ rest ≡ rows_from 0 records slots (rows.old ++ rest) }
{
    // by number: of what `chunks_mut` lends a proof knows no element afterwards
    for k in 0..4 {
        let at = ROW * k;
        rows[at..at + ROW].copy_from_slice(&row_of(records[k], slots[k]));
    }
}
