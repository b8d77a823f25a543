// The carrier table, CDS: its record, and the way over its records. b is a section without its CRC.
#![tactic(auto, unfolding(rules::specs::Tables::cds, rules::specs::Tables::carriers_zeros, rules::specs::Tables::carriers_of, rules::specs::Tables::carriers_fair))]

ghost use Rattle.std.specs.Prelude.{◌≡◌};
ghost use Rattle.rules.specs.Bytes.{from};
ghost use Rattle.rules.specs.Layout.{records};
ghost use Rattle.rules.specs.Refusals.{by_number};
ghost use Rattle.rules.specs.Tables.{carriers_zeros, carriers_of, carriers_fair, cds};
ghost use Rattle.rules.specs.declared.Carriers.{Carriers};
ghost use Rattle.rules.specs.declared.Table.TheVariants as table;
ghost use Rattle.fields.specs.Place.{Stands};
ghost use Rattle.fields.specs.Outline.{outline_of};
ghost use Rattle.rules.proofs.Limits.{cds_limited};

use fields::Outline;
use fields::records::Records;
use rules::{Carriers, Measure, Refusal};

// Bytes of a record.
pub const SIZE: usize = 5;

// Where the records of a section stand, and from which index: right behind the header, which has the first index and the count.
pub fn outline(b: &[u8]) -> Result<Outline, Refusal>
    ensures { by_number result ≡ outline_of table.Cds b.now }
{
    fields::counted_outline(b)
}

// Its zero bit is 0: else 9.
fn carriers_zeros(r: &[u8]) -> bool
    ensures { result ≡ carriers_zeros r.now }
{
    fields::byte(r, 1) / 64 % 2 == 0
}

// What the record with these bytes says.
pub fn carriers_of(r: &[u8]) -> Carriers
    ensures { result ≡ carriers_of r.now }
{
    let count = fields::byte(r, 0);
    let spacing = fields::byte(r, 1);
    let spacing_low = fields::byte(r, 2);
    let first = fields::byte(r, 3);
    let first_low = fields::byte(r, 4);
    Carriers {
        count,
        spacing: Measure {
            unit: spacing / 128,
            number: u16::from_be_bytes([spacing % 64, spacing_low]),
        },
        first: Measure {
            unit: first / 128,
            number: u16::from_be_bytes([first % 128, first_low]),
        },
    }
}

// It has carriers, and none at an index above 255: else 10.
fn carriers_fair(index: u16, c: Carriers) -> bool
    ensures { result ≡ carriers_fair index c }
{
    0 < c.count && index as u32 + c.count as u32 <= 256
}

// The layout of the table, asked of bytes.
#[derive(Clone, Copy)]
pub struct Cds;

impl Records for Cds {
    ghost Row = { Carriers };

    ghost layout = { λ s. cds };

    fn size(&self, b: &[u8], at: usize) -> usize {
        SIZE
    }

    fn zeros(&self, r: &[u8]) -> bool {
        carriers_zeros(r)
    }

    fn fair(&self, index: u16, r: &[u8]) -> bool {
        carriers_fair(index, carriers_of(r))
    }

    fn takes(&self, r: &[u8]) -> u16 {
        fields::byte(r, 0) as u16
    }

    fn described(&self) -> bool {
        true
    }

    ghost limited = { λ s. cds_limited };
}

// The place behind the records of an outline; or 8, 9, 10.
pub fn past_carriers(b: &[u8], o: Outline) -> Result<usize, Refusal>
    ensures { Stands b.now result (records cds o.count o.first (from b.now o.at)) }
{
    fields::records::past_records(&Cds, b, o)
}
