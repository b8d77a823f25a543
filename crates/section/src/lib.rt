// One section: what it reads as, refusals 3 to 11, and the question for a descriptor of its closing list.
#![tactic(auto)]

ghost use Rattle.std.specs.Prelude.{◌≡◌, ◌≤◌, length};
ghost use Rattle.rules.specs.Refusals.{by_number};
ghost use Rattle.rules.specs.Section.{is_number, fitting, content, read_section, read_as, ask, part_of, part_at};
ghost use Rattle.rules.specs.Said.{read_said, asked_said, section_said, ask_said};
ghost use Rattle.fields.specs.Outline.{header_size};
ghost use Rattle.fields.specs.Place.{further};
ghost use Rattle.section.specs.Reads.{behind, answered_as};

use rules::{Part, Refusal, SectionHead, Table};

mod header; // the table that a section is of
mod closing; // the closing list

// At least 8 bytes, exactly 3 + L of them, and L at most 1,021: else 3.
#[tactic(auto, unfolding(rules::specs::Section::fitting))]
fn is_fitting(s: &[u8]) -> bool
    ensures { result ≡ fitting s.now }
{
    if s.len() < 8 {
        return false;
    }
    let l = fields::length_of(s);
    s.len() == 3 + l as usize && l <= 1021
}

// 0xC2 to 0xC4: else 4.
#[tactic(auto, using(crate::proofs::Headers::number_in, crate::proofs::Headers::number_below, crate::proofs::Headers::number_above))]
fn is_table_number(number: u8) -> bool
    ensures { result ≡ is_number number }
{
    matches!(number, 0xC2..=0xC4)
}

// Behind the header's zero bits: what is in front of the records, the records, then the closing list.
fn structured(t: Table, b: &[u8]) -> Result<SectionHead, Refusal>
    requires { header_size t ≤ length b.now }
    ensures { by_number result ≡ answered_as b.now (behind t b.now) }
{
    let outline = tables::outline_of(t, b)?;
    let closing = tables::past_records(t, b, outline)?;
    let revision = closing::close(b, closing)?;
    Ok(SectionHead {
        table: t,
        map: outline.map,
        language: tables::language_of(t, b),
        revision,
        closing,
    })
}

// The section without its CRC, front to back.
fn content_of(b: &[u8]) -> Result<SectionHead, Refusal>
    ensures { by_number result ≡ answered_as b.now (content b.now) }
{
    structured(header::header_of(b)?, b)
}

// What a section reads as: its refusal, or its head. Refusals 3 to 6 by number, and then its content.
pub fn read_section(section: &[u8]) -> Result<SectionHead, Refusal>
    ensures value { by_number result ≡ read_as section.now (read_section section.now) }
    ensures result_value { read_said (by_number result) ≡ section_said section.now }
{
    if !is_fitting(section) {
        return Err(Refusal::BadSize);
    }
    if !is_table_number(fields::byte(section, 0)) {
        return Err(Refusal::NoTableNumber);
    }
    if crc::crc(section) != 0 {
        return Err(Refusal::BadCrc);
    }
    if fields::byte(section, 3) % 32 != 0 {
        return Err(Refusal::OtherProtocol);
    }
    content_of(&section[..section.len() - 4])
}

// Where in a section the body of the first descriptor of a tag in its closing list stands, if the section reads right and
// there is one.
pub fn ask_descriptor(section: &[u8], tag: u8) -> Result<Option<Part>, Refusal>
    ensures value { by_number result ≡ ask tag section.now }
    ensures result_value { asked_said (by_number result) ≡ ask_said tag section.now }
{
    let head = read_section(section)?;
    closing::first_of(&section[..section.len() - 4], head.closing, tag)
}

// That body as a part of the section itself; the empty part at its front where there is none, which ask_descriptor tells from an
// empty body.
pub fn find_descriptor(section: &[u8], tag: u8) -> &[u8]
    ensures result_value { result.now ≡ part_of section.now (ask tag section.now) }
    ensures ref_ptr_value { result.ref_ptr ≡ further section.entry.ref_ptr (part_at (ask tag section.now)) }
{
    match ask_descriptor(section, tag) {
        Ok(Some(part)) => fields::part(section, part.start, part.size),
        Ok(None) => &section[0..0],
        Err(_) => &section[0..0],
    }
}
