// What a state and the store that is lent with it are, for those who hold and those who tune: how many sections a table may have,
// whether the state is well formed, whose map a section is of, where the places are, the section that stands in one, and check 16 of
// a table's places.
#![tactic(auto)]

ghost use Rattle.std.specs.Prelude.{◌≡◌, ◌&&◌, ◌≤◌, eqb};
ghost use Rattle.rules.specs.Holding.{limit_of, index_of, holding_of, with, place_of, store_size, section_at, live_at, gathered_at};
ghost use Rattle.rules.specs.Holding.{well_formed, same_language, not_ours};
ghost use Rattle.rules.specs.Tuning.{is_section, place_reads, table_reads};
ghost use Rattle.fields.specs.Place.{place_or_end, further};

use rules::{Holding, Language, LiveVersion, Revision, SectionHead, State, Table};

// How many tables there are, and the bytes of a place.
const TABLES: usize = 5;

const PLACE: usize = 1024;

// ---- the state

// How many sections a table may have: each half has sections 0 to 3.
#[tactic(auto, unfolding(rules::specs::Holding::limit_of))]
pub fn limit_of(s: State) -> u8
    ensures value { result ≡ limit_of s }
    ensures upper_bound { result ≤ 8 }
{
    4
}

// Whether a state is well formed: else 2.
#[tactic(auto, unfolding(rules::specs::Holding::well_formed))]
pub fn well_formed(s: State) -> bool
    ensures { result ≡ well_formed s }
{
    let limit = limit_of(s);
    let all = s.tables;
    holding::is_formed(limit, all.cds)
        && holding::is_formed(limit, all.mms)
        && holding::is_formed(limit, all.vcm)
        && holding::is_formed(limit, all.dcm)
        && holding::is_formed(limit, all.ntt)
}

// (An arm for each table, here and below: the state has them by name.)
pub fn holding_of(s: State, t: Table) -> Holding
    ensures { result ≡ holding_of s t }
{
    match t {
        Table::Cds => s.tables.cds,
        Table::Mms => s.tables.mms,
        Table::Vcm => s.tables.vcm,
        Table::Dcm => s.tables.dcm,
        Table::Ntt => s.tables.ntt,
    }
}

// The state with another holding for one table, and the others as they were.
#[tactic(auto, unfolding(rules::specs::Holding::with))]
pub fn with_holding(s: State, t: Table, h: Holding) -> State
    ensures { result ≡ with s t h }
{
    let mut tables = s.tables;
    match t {
        Table::Cds => tables.cds = h,
        Table::Mms => tables.mms = h,
        Table::Vcm => tables.vcm = h,
        Table::Dcm => tables.dcm = h,
        Table::Ntt => tables.ntt = h,
    }
    State { tables, ..s }
}

// The three bytes of a section's language are those that were given at the start.
#[tactic(auto, unfolding(rules::specs::Bytes::byte, rules::specs::Holding::same_language))]
fn is_language(l: Language, ours: [u8; 3]) -> bool
    ensures { result ≡ same_language l ours }
{
    l.first == ours[0] && l.second == ours[1] && l.third == ours[2]
}

// 0xC4 has a map number, 0xC3 a language, and it is another one than the state's.
#[tactic(auto, unfolding(rules::specs::Holding::not_ours))]
pub fn is_for_other(s: State, t: Table, map: u16, language: Language) -> bool
    ensures { result ≡ not_ours s t map language }
{
    match t {
        Table::Cds | Table::Mms => false,
        Table::Vcm | Table::Dcm => map != s.settings.map,
        Table::Ntt => !is_language(language, s.settings.language),
    }
}

// ---- the store

pub fn index_of(t: Table) -> u8
    ensures { result ≡ index_of t }
{
    t as u8
}

// Bytes of all places: those of each table, half and section.
#[tactic(auto, unfolding(rules::specs::Gathering::store_size))]
pub fn store_size(s: State) -> usize
    ensures { result ≡ store_size (limit_of s) }
{
    TABLES * 2 * limit_of(s) as usize * PLACE
}

// Where the place of section n in a half of a table begins.
#[tactic(auto, unfolding(rules::specs::Gathering::place_of))]
pub fn place_of(s: State, t: Table, half: u8, n: u8) -> usize
    ensures { result ≡ place_of (limit_of s) t half n }
{
    ((index_of(t) as usize * 2 + half as usize) * limit_of(s) as usize + n as usize) * PLACE
}

// The section in the place that begins there, as a part of the store: its first 3 + L bytes.
#[tactic(auto, using(crate::proofs::Laws::front), unfolding(rules::specs::Gathering::section_at, rules::specs::Bytes::from))]
fn section_at(store: &[u8], at: usize) -> &[u8]
    ensures result_value { result.now ≡ section_at store.now at }
    ensures ref_ptr_value { result.ref_ptr ≡ further store.entry.ref_ptr (place_or_end store.now at) }
{
    let place = fields::part(store, at, PLACE);
    fields::part(place, 0, 3 + fields::length_of(place) as usize)
}

// The section in the place of section n of the live half, a part of the store too; where the store ends before the place, the empty
// one at its end.
#[tactic(auto, unfolding(rules::specs::Gathering::live_at))]
pub fn live_section(s: State, store: &[u8], t: Table, n: u8) -> &[u8]
    ensures result_value { result.now ≡ section_at store.now (live_at s t n) }
    ensures ref_ptr_value { result.ref_ptr ≡ further store.entry.ref_ptr (place_or_end store.now (live_at s t n)) }
{
    section_at(store, place_of(s, t, holding_of(s, t).half, n))
}

// Where section n of a table is put: in the other half than the one set.
#[tactic(auto, unfolding(rules::specs::Gathering::gathered_at))]
pub fn gathered_at(s: State, t: Table, n: u8) -> usize
    ensures { result ≡ gathered_at s t n }
{
    place_of(s, t, holding::gathering_half(holding_of(s, t)), n)
}

// ---- check 16: the places of a live table, read again

// Whether a revision is that of section n of a live version.
fn is_revision_of(live: LiveVersion, n: u8, r: Revision) -> bool
    ensures { result ≡ (eqb r.version live.version && eqb r.number n && eqb r.last live.last) }
{
    r.version == live.version && r.number == n && r.last == live.last
}

// Whether a section that reads right is section n of a live table: that table, map (or language), version, number and last.
#[tactic(auto, unfolding(rules::specs::Tuning::is_section))]
fn is_section_of(s: State, t: Table, n: u8, head: SectionHead) -> bool
    ensures { result ≡ is_section s t n head.table (not_ours s head.table head.map head.language) head.revision }
{
    head.table == t
        && !is_for_other(s, head.table, head.map, head.language)
        && is_revision_of(holding_of(s, t).live, n, head.revision)
}

// Whether the place of section n of a live table still reads right as that section.
#[tactic(auto, using(crate::proofs::Reading::place_by_head), unfolding(crate::proofs::Reading::by_head))]
fn place_reads(s: State, store: &[u8], t: Table, n: u8) -> bool
    ensures { result ≡ place_reads s store.now t n }
{
    let read = section::read_section(live_section(s, store, t, n));
    read.is_ok_and(|head| is_section_of(s, t, n, head))
}

// Whether all places of a live table do.
pub fn table_reads(s: State, store: &[u8], t: Table) -> bool
    ensures { result ≡ table_reads s store.now t }
{
    (0..=holding_of(s, t).live.last).all(|n| place_reads(s, store, t, n))
}
