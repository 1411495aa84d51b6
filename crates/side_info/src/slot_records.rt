// The records of a frame's slots, in turn.
ghost use Rattle.std.specs.Prelude.{◌≡◌, ◌*◌, ◌≤◌};
ghost use Rattle.standard.specs.Bits.{bits};
ghost use Rattle.standard.specs.Header.{is_mpeg1, is_slow};
ghost use Rattle.standard.specs.Record.{record_width};
ghost use Rattle.standard.specs.SideInfo.{records_of};
ghost use Rattle.side_info.specs.Parts.{filled};

use crate::record::{absent_record, read_record, record_width};
use derived::is_mpeg1;
use standard::{FrameHeader, Refusal, SlotRecord};

// The records of n slots, and of lacking ones; the first that is refused decides.
#[tactic(auto, using(record_check::proofs::Widths::width))]
pub(crate) fn read_records(
    h: FrameHeader,
    s: &[u8],
    start: u8,
    n: usize,
) -> Result<[SlotRecord; 4], Refusal>
    requires { n ≤ 4 }
    ensures { result ≡ filled n (records_of (is_mpeg1 h.version) (is_slow h.rate) n (bits s.now start (n * record_width (is_mpeg1 h.version)))) }
{
    let w = record_width(is_mpeg1(h.version));
    let mut slots = [absent_record(); 4];
    let mut at = start as u16;
    for i in 0..n {
        slots[i] = read_record(h, s, at)?;
        at += w;
    }
    Ok(slots)
}
