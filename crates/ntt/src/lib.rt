// The network text table, NTT: the text rule of 003, section 7.1, its name record, and the way over its records. b is a section
// without its CRC.
#![tactic(auto, unfolding(rules::specs::Text::is_page, rules::specs::Text::is_single, rules::specs::Text::is_long, rules::specs::Text::is_wide, rules::specs::Text::good_mode, rules::specs::Text::block_size, rules::specs::Tables::ntt, rules::specs::Tables::name_zeros, rules::specs::Tables::name_of, rules::specs::Tables::name_fair, rules::specs::Label::is_name))]

ghost use Rattle.std.specs.Prelude.{◌≡◌, ◌≤◌, ◌<◌};
ghost use Rattle.rules.specs.Bytes.{from};
ghost use Rattle.rules.specs.Layout.{extent, records};
ghost use Rattle.rules.specs.Refusals.{by_number};
ghost use Rattle.rules.specs.Text.{is_page, is_single, block_size, good_mode, good_text};
ghost use Rattle.rules.specs.Tables.{Name, name_zeros, name_of, name_fair, ntt};
ghost use Rattle.rules.specs.Label as rule;
ghost use Rattle.rules.specs.declared.Table.TheVariants as table;
ghost use Rattle.fields.specs.Outline.{header_says, outline_of};
ghost use Rattle.fields.specs.Place.{Stands};
ghost use Rattle.rules.proofs.Limits.{ntt_limited};

use fields::Outline;
use fields::records::Records;
use rules::{Language, Refusal};

// ---- text

// A mode that selects a page of characters of 8 bits.
fn is_page(mode: u8) -> bool
    ensures { result ≡ is_page mode }
{
    matches!(mode, 0x00..=0x06 | 0x09..=0x10 | 0x20..=0x27 | 0x30..=0x33)
}

// A format effector of a single byte.
fn is_single(mode: u8) -> bool
    ensures { result ≡ is_single mode }
{
    matches!(mode, 0x40..=0x9F)
}

// A mode that isn't reserved; characters of 16 bits have an even length.
fn good_mode(mode: u8, size: u8) -> bool
    ensures { result ≡ good_mode mode size }
{
    is_page(mode) || is_single(mode) || 0xA0 <= mode || mode == 0x3F && size % 2 == 0
}

// Bytes of the block that begins a text.
fn block_size(s: &[u8]) -> usize
    ensures value { result ≡ block_size s.now }
    ensures result_nonzero { (0 < result) × (result < 258) }
{
    let mode = fields::byte(s, 0);
    let size = fields::byte(s, 1);
    if is_single(mode) {
        return 1;
    }
    2 + size as usize
}

// Whether these bytes are a text: one or more blocks, which fill them. (No `for`: how far it steps is read from the bytes.)
pub fn good_text(s: &[u8]) -> bool
    ensures { result ≡ good_text s.now }
{
    if s.is_empty() {
        return false;
    }
    let mut at = 0;
    while at < s.len() {
        let rest = &s[at..];
        let size = block_size(rest);
        if rest.len() < size {
            return false;
        }
        if !good_mode(fields::byte(rest, 0), fields::byte(rest, 1)) {
            return false;
        }
        at += size;
    }
    true
}

// ---- records

// Bytes in front of a name, and where among them its length stands.
pub const FRONT: usize = 4;

pub const LENGTH: usize = 3;

// Bytes of the record at a place: those in front of its name, and the name.
pub fn name_size(b: &[u8], at: usize) -> usize
    ensures value { result ≡ extent ntt.block (from b.now at) }
    ensures lower_bound { (4 ≤ result) × (result < 260) }
{
    let front = fields::part(b, at, FRONT);
    FRONT + fields::byte(front, LENGTH) as usize
}

// Its zero bits are 0: else 9.
fn name_zeros(r: &[u8]) -> bool
    ensures { result ≡ name_zeros r.now }
{
    fields::byte(r, 0) % 128 == 0
}

// Its name is a text: else 10.
fn name_fair(r: &[u8]) -> bool
    ensures { result ≡ name_fair 0 (name_of r.now) }
{
    good_text(fields::part(r, FRONT, r.len()))
}

// Whether the record with these bytes is of an application, or of a source, and of its number: what a search goes by. The bytes in
// front of the name tell it.
pub fn is_name(r: &[u8], application: u8, number: u16) -> bool
    ensures { result ≡ rule.is_name application number (record { index = 0; what = name_of r.now }) }
{
    fields::byte(r, 0) / 128 == application && fields::word(r, 1) == number
}

// The layout of the table, asked of bytes.
#[derive(Clone, Copy)]
pub struct Ntt;

impl Records for Ntt {
    ghost Row = { Name };

    ghost layout = { λ s. ntt };

    fn size(&self, b: &[u8], at: usize) -> usize {
        name_size(b, at)
    }

    fn zeros(&self, r: &[u8]) -> bool {
        name_zeros(r)
    }

    fn fair(&self, index: u16, r: &[u8]) -> bool {
        name_fair(r)
    }

    // a name record carries its number itself
    fn takes(&self, r: &[u8]) -> u16 {
        0
    }

    fn described(&self) -> bool {
        true
    }

    ghost limited = { λ s. ntt_limited };
}

// The place behind the records of an outline; or 8, 9, 10.
pub fn past_names(b: &[u8], o: Outline) -> Result<usize, Refusal>
    ensures { Stands b.now result (records ntt o.count o.first (from b.now o.at)) }
{
    fields::records::past_records(&Ntt, b, o)
}

// ---- a section

// Bytes of the header, which has a language, and of the head, which is the record count.
pub const HEADER: usize = 8;

const HEAD: usize = 1;

// Where the records of a section stand: behind the head; or 8.
pub fn outline(b: &[u8]) -> Result<Outline, Refusal>
    ensures { by_number result ≡ outline_of table.Ntt b.now }
{
    if fields::short(b, HEADER, HEAD) {
        return Err(Refusal::CutShort);
    }
    let head = fields::part(b, HEADER, HEAD);
    Ok(Outline {
        at: HEADER + HEAD,
        map: 0,
        first: 0,
        count: fields::byte(head, 0),
        included: 0,
    })
}

// The three language bytes of the header.
pub fn language_of(b: &[u8]) -> Language
    ensures { result ≡ (header_says table.Ntt b.now).language }
{
    Language {
        first: fields::byte(b, 4),
        second: fields::byte(b, 5),
        third: fields::byte(b, 6),
    }
}
