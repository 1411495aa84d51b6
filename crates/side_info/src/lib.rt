// A frame's side information, read from its bytes.
#![tactic(auto)]

ghost use Rattle.std.specs.Prelude.{◌≡◌};
ghost use Rattle.standard.specs.SideInfo.{side_under, side_of};

use crate::side::{needed_from, read_bits};
use crc::fits;
use derived::{header_size, side_size};
use header::is_header;
use standard::{FrameHeader, Refusal, SideInfo};

mod record;
pub mod side;
mod slot_records;

// The side information under a header, whatever it has: whether bytes read to it is not asked.
#[tactic(auto, using(crate::proofs::Sides::header_small, crate::proofs::Sides::side_small), unfolding(standard::specs::SideInfo::side_from, standard::specs::SideInfo::absent_from, standard::specs::Header::side_size, standard::specs::Told::pick))]
pub fn side_under(h: FrameHeader, frame: &[u8]) -> Result<SideInfo, Refusal>
    ensures { result ≡ side_under h frame.now }
{
    let from = header_size(h);
    let end = from + side_size(h);
    if frame.len() < end {
        let offset = needed_from(h).max(frame.len()) as u16;
        return Err(Refusal::AbsentBytes { offset });
    }
    if h.crc && !fits(frame, end) {
        return Err(Refusal::WrongCrc);
    }
    read_bits(h, frame)
}

// The side information of a frame under its header, from the frame's bytes, the header's first.
#[tactic(auto, unfolding(standard::specs::SideInfo::side_of, standard::specs::Told::pick))]
pub fn read_side_info(h: FrameHeader, frame: &[u8]) -> Result<SideInfo, Refusal>
    ensures { result ≡ side_of h frame.now }
{
    if !is_header(h) {
        return Err(Refusal::MadeUpRecord);
    }
    side_under(h, frame)
}
