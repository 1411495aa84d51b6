// The bit reservoir: what a frame keeps of it and adds to it, in lent bytes.
#![tactic(auto)]

ghost use Rattle.std.specs.Prelude.{◌≡◌};
ghost use Rattle.standard.specs.Reservoir.{turn_in, Turned, «emptied»};

use lent_bytes::{put, slide};
use standard::{RESERVOIR_BYTES, Refusal, Reservoir};

// For a gap on the card: no byte before it is meant any more.
pub fn emptied() -> Reservoir
    ensures { result ≡ «emptied» }
{
    Reservoir { length: 0 }
}

// A frame's turn: the bytes it reaches back to are kept and its main data is put after them. Where it reaches further back than
// there are bytes, its main data is put after all of them, for the next frames to reach.
pub fn turn(
    bytes: &mut [u8],
    reservoir: &mut Reservoir,
    begin: u16,
    main: &[u8],
) -> Result<(), Refusal>
    ensures { Turned bytes.old reservoir.old (turn_in bytes.old reservoir.old.length begin main.now) result reservoir.new
        bytes.new }
{
    let stated = reservoir.length;
    let back = begin as usize;
    if bytes.len() < RESERVOIR_BYTES {
        return Err(Refusal::UnfitMemory);
    }
    if RESERVOIR_BYTES < stated {
        return Err(Refusal::UnfitMemory);
    }
    if RESERVOIR_BYTES < main.len() {
        return Err(Refusal::UnfitMemory);
    }
    if RESERVOIR_BYTES < back + main.len() {
        return Err(Refusal::UnfitMemory);
    }
    if stated < back {
        put(&mut *bytes, stated, main);
        reservoir.length = stated + main.len();
        return Err(Refusal::ShortReservoir);
    }
    slide(&mut *bytes, stated - back, back);
    put(&mut *bytes, back, main);
    reservoir.length = back + main.len();
    Ok(())
}
