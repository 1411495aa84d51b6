// A frame's side information from its bits. A u8 holds the place where the records start and a u16 the place where the last ends, so that no
// sum of a place and a width wraps.
ghost use Rattle.std.specs.Prelude.{◌≡◌, false, ◌++◌, ◌-◌, ◌≤◌, replicate};
ghost use Rattle.standard.specs.Bits.{bits};
ghost use Rattle.standard.specs.Header.{header_size};
ghost use Rattle.standard.specs.SideInfo.{«no_side», needed_from};
ghost use Rattle.side_info.specs.Parts.{side_after};

use crate::record::absent_record;
use crate::slot_records::read_records;
use bits::{bit, field};
use crc::FIRST_COVERED;
use derived::{header_size, is_mpeg1, is_two};
use record_check::layout::layout_of;
use standard::{FrameHeader, Refusal, SideInfo};

// What stands for side information where none is told.
#[tactic(auto, unfolding(standard::specs::SideInfo::no_side))]
pub fn no_side() -> SideInfo
    ensures { result ≡ «no_side» }
{
    SideInfo {
        main_data_begin: 0,
        scfsi: [false; 8],
        slots: [absent_record(); 4],
    }
}

// n sharing bits from a place on, and false for the rest of the eight.
#[tactic(auto, using(crate::proofs::Loops::shares_turn, crate::proofs::Loops::shares_end))]
pub(crate) fn read_shares(s: &[u8], at: u8, n: usize) -> [bool; 8]
    requires { n ≤ 8 }
    ensures { result ≡ (bits s.now at n ++ replicate (8 - n) false) }
{
    let mut shares = [false; 8];
    for i in 0..n {
        shares[i] = bit(s, at as usize + i);
    }
    shares
}

// The side information in the bits after a header.
#[tactic(auto, using(crate::proofs::Sides::header_small))]
pub(crate) fn read_bits(h: FrameHeader, frame: &[u8]) -> Result<SideInfo, Refusal>
    ensures { result ≡ side_after h frame.now }
{
    let at = 8 * header_size(h);
    let l = layout_of(is_mpeg1(h.version), is_two(h.channels));
    let slots = read_records(h, frame, (at + l.prefix + l.shares) as u8, l.slots)?;
    let begin = field(frame, at, l.main_data_begin);
    let shares = read_shares(frame, (at + l.prefix) as u8, l.shares);
    Ok(SideInfo {
        main_data_begin: begin,
        scfsi: shares,
        slots,
    })
}

// The first byte that is needed after a header.
pub(crate) fn needed_from(h: FrameHeader) -> usize
    ensures { result ≡ needed_from h.crc (header_size h) }
{
    if h.crc {
        return FIRST_COVERED;
    }
    header_size(h)
}
