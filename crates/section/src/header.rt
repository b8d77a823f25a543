// The header: the table that a section is of, refusal 7, and the header's own 8 and 9; its limits, 10, are judged by the table's room. b is a
// section without its CRC.
ghost use Rattle.std.specs.Prelude.{◌≡◌};
ghost use Rattle.rules.specs.Bytes.{byte};
ghost use Rattle.rules.specs.Refusals.{by_number};
ghost use Rattle.rules.specs.Section.{medium_at, named};
ghost use Rattle.section.specs.Reads.{named_as, table_of, headed_by, headed};

use rules::{Refusal, Table};

// The table that a table number and the byte of medium and subtype name.
fn table_named(number: u8, medium: u8) -> Option<Table>
    ensures { result ≡ named_as (named number medium) }
{
    match (number, medium) {
        (0xC2, 1) => Some(Table::Cds),
        (0xC2, 2) => Some(Table::Mms),
        (0xC3, 6) => Some(Table::Ntt),
        (0xC4, 0) => Some(Table::Vcm),
        (0xC4, 1) => Some(Table::Dcm),
        _ => None,
    }
}

// The header whole, once its table is known: 8 before 9.
fn header_whole(t: Table, b: &[u8]) -> Result<Table, Refusal>
    ensures { by_number result ≡ table_of (headed_by t b.now) }
{
    let high = fields::byte(b, 1);
    let protocol = fields::byte(b, 3);
    if b.len() < tables::header_size(t) {
        return Err(Refusal::CutShort);
    }
    if high / 64 != 0 {
        return Err(Refusal::ZeroBits);
    }
    if protocol / 32 != 0 {
        return Err(Refusal::ZeroBits);
    }
    Ok(t)
}

// Where the byte of medium and subtype stands.
fn medium_at(b: &[u8]) -> usize
    ensures { result ≡ medium_at (byte 0 b.now) }
{
    match fields::byte(b, 0) {
        0xC2 => 6,
        0xC3 => 7,
        _ => 4,
    }
}

// The table that the header of a section without its CRC names.
pub fn header_of(b: &[u8]) -> Result<Table, Refusal>
    ensures { by_number result ≡ table_of (headed b.now) }
{
    let at = medium_at(b);
    if b.len() <= at {
        return Err(Refusal::CutShort);
    }
    let Some(t) = table_named(fields::byte(b, 0), fields::byte(b, at)) else {
        return Err(Refusal::NoTable);
    };
    header_whole(t, b)
}
