// The defined channels map, DCM: its head, its range byte, and the way over its ranges. b is a section without its CRC.
#![tactic(auto, unfolding(rules::specs::Tables::dcm, rules::specs::Tables::dcm_head_zeros, rules::specs::Tables::dcm_head_of, rules::specs::Tables::range_of, rules::specs::Tables::range_fair))]

ghost use Rattle.std.specs.Prelude.{◌≡◌};
ghost use Rattle.rules.specs.Bytes.{from};
ghost use Rattle.rules.specs.Layout.{records};
ghost use Rattle.rules.specs.Refusals.{by_number};
ghost use Rattle.rules.specs.Tables.{dcm_head_zeros, dcm_head_of, range_of, range_fair, dcm};
ghost use Rattle.rules.specs.declared.Range.{Range};
ghost use Rattle.rules.specs.declared.Table.TheVariants as table;
ghost use Rattle.fields.specs.Place.{Stands};
ghost use Rattle.fields.specs.Outline.{outline_of};
ghost use Rattle.rules.proofs.Limits.{dcm_limited};

use fields::Outline;
use fields::records::Records;
use rules::{DcmHead, Range, Refusal};

// Bytes of the head, and of a range.
const HEAD: usize = 3;

pub const SIZE: usize = 1;

// The zero bits of the head are 0: else 9.
fn head_zeros(r: &[u8]) -> bool
    ensures { result ≡ dcm_head_zeros r.now }
{
    let first = fields::byte(r, 0);
    let length = fields::byte(r, 2);
    first / 16 == 0 && length / 128 == 0
}

// What the head with these bytes says.
fn head_of(r: &[u8]) -> DcmHead
    ensures { result ≡ dcm_head_of r.now }
{
    let first = fields::byte(r, 0);
    let first_low = fields::byte(r, 1);
    let length = fields::byte(r, 2);
    DcmHead {
        first: u16::from_be_bytes([first % 16, first_low]),
        count: length % 128,
    }
}

// Where the range bytes of a section stand, and from which channel: behind the head; or 8, 9. (Like the VCM's, but of another head: a trait for
// the two would have more lines than it saves.)
pub fn outline(b: &[u8]) -> Result<Outline, Refusal>
    ensures { by_number result ≡ outline_of table.Dcm b.now }
{
    if fields::short(b, fields::HEADER, HEAD) {
        return Err(Refusal::CutShort);
    }
    let r = fields::part(b, fields::HEADER, HEAD);
    if !head_zeros(r) {
        return Err(Refusal::ZeroBits);
    }
    let h = head_of(r);
    Ok(Outline {
        at: fields::HEADER + HEAD,
        map: fields::word(b, 5),
        first: h.first,
        count: h.count,
        included: 0,
    })
}

// What the range byte says.
pub fn range_of(r: &[u8]) -> Range
    ensures { result ≡ range_of r.now }
{
    let range = fields::byte(r, 0);
    Range {
        defined: range / 128,
        count: range % 128,
    }
}

// It has channels, and none above 4095: else 10.
fn range_fair(first: u16, r: Range) -> bool
    ensures { result ≡ range_fair first r }
{
    0 < r.count && first as u32 + r.count as u32 <= 4096
}

// The layout of the table, asked of bytes. A range byte has no zero bits.
#[derive(Clone, Copy)]
pub struct Dcm;

impl Records for Dcm {
    ghost Row = { Range };

    ghost layout = { λ s. dcm };

    fn size(&self, b: &[u8], at: usize) -> usize {
        SIZE
    }

    fn zeros(&self, r: &[u8]) -> bool {
        true
    }

    fn fair(&self, index: u16, r: &[u8]) -> bool {
        range_fair(index, range_of(r))
    }

    fn takes(&self, r: &[u8]) -> u16 {
        fields::byte(r, 0) as u16 % 128
    }

    fn described(&self) -> bool {
        false
    }

    ghost limited = { λ s. dcm_limited };
}

// The place behind the range bytes of an outline; or 8, 10.
pub fn past_ranges(b: &[u8], o: Outline) -> Result<usize, Refusal>
    ensures { Stands b.now result (records dcm o.count o.first (from b.now o.at)) }
{
    fields::records::past_records(&Dcm, b, o)
}
