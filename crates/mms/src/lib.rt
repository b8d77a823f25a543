// The modulation table, MMS: its record, and the way over its records. b is a section without its CRC.
#![tactic(auto, unfolding(crate::specs::Low::low, rules::specs::Tables::mms, rules::specs::Tables::mode_zeros, rules::specs::Tables::mode_of))]

ghost use Rattle.std.specs.Prelude.{◌≡◌, true, ◌&&◌, leb};
ghost use Rattle.rules.specs.Bytes.{from};
ghost use Rattle.rules.specs.Layout.{records};
ghost use Rattle.rules.specs.Refusals.{by_number};
ghost use Rattle.rules.specs.Tables.{mode_zeros, mode_of, among, systems, inner_codings, assigned, mode_fair, mms};
ghost use Rattle.rules.specs.declared.Mode.{Mode};
ghost use Rattle.rules.specs.declared.Table.TheVariants as table;
ghost use Rattle.fields.specs.Place.{Stands};
ghost use Rattle.fields.specs.Outline.{outline_of};
ghost use Rattle.mms.specs.Low.{low, low_limited};
ghost use Rattle.rules.proofs.Limits.{mms_limited};

use fields::Outline;
use fields::records::Records;
use rules::{Mode, Refusal};

pub mod rows; // the assigned values, as the standard lists them

// Bytes of a record.
pub const SIZE: usize = 6;

// Where the records of a section stand, and from which index: right behind the header, which has the first index and the count.
pub fn outline(b: &[u8]) -> Result<Outline, Refusal>
    ensures { by_number result ≡ outline_of table.Mms b.now }
{
    fields::counted_outline(b)
}

// Its zero bits are 0: else 9.
fn mode_zeros(r: &[u8]) -> bool
    ensures { result ≡ mode_zeros r.now }
{
    fields::byte(r, 1) / 32 % 4 == 0 && fields::byte(r, 2) / 16 == 0
}

// What the record with these bytes says.
pub fn mode_of(r: &[u8]) -> Mode
    ensures { result ≡ mode_of r.now }
{
    let codings = fields::byte(r, 0);
    let format = fields::byte(r, 1);
    let s3 = fields::byte(r, 2);
    let s2 = fields::byte(r, 3);
    let s1 = fields::byte(r, 4);
    let s0 = fields::byte(r, 5);
    Mode {
        system: codings / 16,
        inner: codings % 16,
        split: format / 128,
        format: format % 32,
        symbols: u32::from_be_bytes([s3 % 16, s2, s1, s0]),
    }
}

// Whether x is one of the rows. Where the compiler knows them it makes one comparison or a test of bits of it.
#[tactic(auto, using(crate::proofs::Laws::among_any))]
fn among(rows: &[u8], x: u8) -> bool
    ensures { result ≡ among x rows.now }
{
    rows.contains(&x)
}

// Each list is taken into a local and lent: the compiler looks through a local, and not through a list that is lent where it stands (that takes
// three times the instructions).

#[tactic(auto, unfolding(rules::specs::Tables::systems))]
fn system_assigned(x: u8) -> bool
    ensures { result ≡ among x systems }
{
    let rows = rows::SYSTEMS;
    among(&rows, x)
}

#[tactic(auto, unfolding(rules::specs::Tables::inner_codings))]
fn inner_assigned(x: u8) -> bool
    ensures { result ≡ among x inner_codings }
{
    let rows = rows::CODINGS;
    among(&rows, x)
}

#[tactic(auto, using(crate::proofs::Laws::up_to_24), unfolding(rules::specs::Tables::among))]
fn format_assigned(x: u8) -> bool
    ensures { result ≡ leb x 24 }
{
    let rows = rows::FORMATS;
    among(&rows, x)
}

// System, inner coding and format are assigned (Tables 5.7 to 5.9 of 003).
#[tactic(auto, unfolding(rules::specs::Tables::assigned))]
fn is_known(m: Mode) -> bool
    ensures { result ≡ assigned m }
{
    system_assigned(m.system) && inner_assigned(m.inner) && format_assigned(m.format)
}

// Its values are assigned, and the index is at most 255: else 10.
#[tactic(auto, unfolding(rules::specs::Tables::mode_fair))]
fn mode_fair(index: u16, m: Mode) -> bool
    ensures { result ≡ mode_fair index m }
{
    is_known(m) && index <= 255
}

// Whether a record's zero bits are 0 and its values are assigned, by the bytes as they stand: the zero bits and the format at once.
#[tactic(auto, unfolding(rules::specs::Tables::mode_zeros, rules::specs::Tables::mode_of, rules::specs::Tables::assigned))]
fn is_assigned(r: &[u8]) -> bool
    ensures { result ≡ true → (mode_zeros r.now && assigned (mode_of r.now)) ≡ true }
{
    let codings = fields::byte(r, 0);
    fields::byte(r, 2) <= 15
        && system_assigned(codings / 16)
        && inner_assigned(codings % 16)
        && format_assigned(fields::byte(r, 1) % 128)
}

// The layout of the table, asked of bytes.
#[derive(Clone, Copy)]
pub struct Mms;

impl Records for Mms {
    ghost Row = { Mode };

    ghost layout = { λ s. mms };

    fn size(&self, b: &[u8], at: usize) -> usize {
        SIZE
    }

    fn zeros(&self, r: &[u8]) -> bool {
        mode_zeros(r)
    }

    fn fair(&self, index: u16, r: &[u8]) -> bool {
        mode_fair(index, mode_of(r))
    }

    fn takes(&self, r: &[u8]) -> u16 {
        1
    }

    fn described(&self) -> bool {
        true
    }

    ghost limited = { λ s. mms_limited };
}

// The layout of records whose indices are all at most 255: most sections have no other, and a walk that compares no index takes a tenth fewer
// instructions.
struct Low;

impl Records for Low {
    ghost Row = { Mode };

    ghost layout = { λ s. low };

    fn size(&self, b: &[u8], at: usize) -> usize {
        Mms.size(b, at)
    }

    fn zeros(&self, r: &[u8]) -> bool {
        Mms.zeros(r)
    }

    fn fair(&self, index: u16, r: &[u8]) -> bool {
        is_known(mode_of(r))
    }

    fn is_right(&self, index: u16, r: &[u8]) -> bool {
        is_assigned(r)
    }

    fn takes(&self, r: &[u8]) -> u16 {
        0
    }

    fn described(&self) -> bool {
        Mms.described()
    }

    ghost limited = { λ s. low_limited };
}

// The place behind the records of an outline; or 8, 9, 10.
#[tactic(auto, using(crate::proofs::Indices::stands_low))]
pub fn past_modes(b: &[u8], o: Outline) -> Result<usize, Refusal>
    ensures { Stands b.now result (records mms o.count o.first (from b.now o.at)) }
{
    if o.first as u32 + o.count as u32 <= 256 {
        return fields::records::past_records(&Low, b, o);
    }
    fields::records::past_records(&Mms, b, o)
}
