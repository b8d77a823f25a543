// The tables by their names: what the reader, and who goes over a section's records, asks of the table that the section is of.
// (An arm for each: which table it is, a section's bytes say.)
#![tactic(auto)]

ghost use Rattle.std.specs.Prelude.{◌≡◌};
ghost use Rattle.rules.specs.Bytes.{from};
ghost use Rattle.rules.specs.Layout.{records};
ghost use Rattle.rules.specs.Refusals.{by_number};
ghost use Rattle.fields.specs.Place.{Stands};
ghost use Rattle.fields.specs.Outline.{header_size, header_says, layout_of, outline_of};

use fields::Outline;
use rules::{Language, Refusal, Table};

// Bytes of the header.
pub fn header_size(t: Table) -> usize
    ensures { result ≡ header_size t }
{
    match t {
        Table::Cds | Table::Mms | Table::Vcm | Table::Dcm => fields::HEADER,
        Table::Ntt => ntt::HEADER,
    }
}

// The language that stands in the header, or 0 where none does.
#[tactic(auto, unfolding(rules::specs::Section::header_of, rules::specs::Form::counted_header, rules::specs::Form::map_header, rules::specs::Form::no_language))]
pub fn language_of(t: Table, b: &[u8]) -> Language
    ensures { result ≡ (header_says t b.now).language }
{
    let none = Language::default();
    match t {
        Table::Cds | Table::Mms | Table::Vcm | Table::Dcm => none,
        Table::Ntt => ntt::language_of(b),
    }
}

// Where the records of a section stand, or the refusal of what is in front of them: 10 of the header, 8 and 9 of the head.
pub fn outline_of(t: Table, b: &[u8]) -> Result<Outline, Refusal>
    ensures { by_number result ≡ outline_of t b.now }
{
    match t {
        Table::Cds => cds::outline(b),
        Table::Mms => mms::outline(b),
        Table::Vcm => vcm::outline(b),
        Table::Dcm => dcm::outline(b),
        Table::Ntt => ntt::outline(b),
    }
}

// The place behind the records of an outline; or 8, 9, 10. An outline's place may lie behind the end: no record stands there.
pub fn past_records(t: Table, b: &[u8], o: Outline) -> Result<usize, Refusal>
    ensures { Stands b.now result (records (layout_of t o.included) o.count o.first (from b.now o.at)) }
{
    match t {
        Table::Cds => cds::past_carriers(b, o),
        Table::Mms => mms::past_modes(b, o),
        Table::Vcm => vcm::past_channels(b, o),
        Table::Dcm => dcm::past_ranges(b, o),
        Table::Ntt => ntt::past_names(b, o),
    }
}
