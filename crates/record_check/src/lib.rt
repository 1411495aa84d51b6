// Which records and side information bytes read to; how side information is laid out, and what its fields are given.
#![tactic(auto)]

ghost use Rattle.std.specs.Prelude.{◌≡◌, ◌≤◌};
ghost use Rattle.std.specs.List.{list_all};
ghost use Rattle.standard.specs.Header.{is_mpeg1, is_slow};
ghost use Rattle.standard.specs.SideInfo.{is_record_under, is_absent, are_slots, is_side};

use crate::checks::{is_absent, is_body, is_head, is_unmixed, no_shares};
use crate::layout::layout_of;
use derived::{is_mpeg1, is_slow, is_two};
use standard::{FrameHeader, SideInfo, SlotRecord};

pub mod checks;
pub mod given;
pub mod layout;

// Whether some bits read to a slot's record, under a header.
#[tactic(auto, unfolding(standard::specs::Record::is_record))]
pub fn is_record(h: FrameHeader, r: SlotRecord) -> bool
    ensures { result ≡ is_record_under h r }
{
    let version = h.version;
    let rate = h.rate;
    let head = is_head(is_mpeg1(version), r);
    let unmixed = is_unmixed(is_slow(rate), r);
    head & unmixed & is_body(r)
}

// Each is a record.
fn are_records(h: FrameHeader, s: &[SlotRecord]) -> bool
    ensures { result ≡ list_all (is_record_under h) s.now }
{
    s.iter().all(|r| is_record(h, *r))
}

// Each is that of a slot which the frame lacks.
fn are_absent(s: &[SlotRecord]) -> bool
    ensures { result ≡ list_all is_absent s.now }
{
    s.iter().all(|r| is_absent(*r))
}

// Four slots: n records, and then those of lacking slots.
fn slots_fit(h: FrameHeader, n: usize, s: [SlotRecord; 4]) -> bool
    requires { n ≤ 4 }
    ensures { result ≡ are_slots (is_mpeg1 h.version) (is_slow h.rate) n s }
{
    are_records(h, &s[..n]) && are_absent(&s[n..])
}

// Whether some bytes read to side information, under a header.
pub fn is_side_info(h: FrameHeader, i: SideInfo) -> bool
    ensures { result ≡ is_side h i }
{
    let version = h.version;
    let channels = h.channels;
    let l = layout_of(is_mpeg1(version), is_two(channels));
    let shares = no_shares(l.shares, i.scfsi);
    let slots = slots_fit(h, l.slots, i.slots);
    (i.main_data_begin < (1 << l.main_data_begin)) & shares & slots
}
