// The searches of the live tables, for channels, carriers, modes, ranges and names alike: nested loops over sections and records, left from
// inside at the first match. They go over places that passed check 16, so a record is passed by its size and its descriptors alone.
// What is found is an entry, a number that says where in the store the record stands; what the record says is read there.
#![tactic(auto, unfolding(rules::specs::Tables::cds, rules::specs::Tables::mms, rules::specs::Tables::vcm, rules::specs::Tables::dcm, rules::specs::Tables::ntt, rules::specs::Tables::in_khz, rules::specs::Tables::carrier_khz, rules::specs::Section::without_crc, rules::specs::Tuning::is_carrier, rules::specs::Tuning::is_mode, rules::specs::Tuning::is_channel, rules::specs::Tuning::is_range, rules::specs::Label::is_name, crate::specs::Entries::outline_in, crate::specs::Entries::span_of, crate::specs::Entries::entry_of))]

ghost use Rattle.std.specs.Prelude.{Bool, None, IfSome, ◌≡◌, ◌+◌, ◌-◌, ◌*◌, ◌%◌, ◌^◌, ◌≤◌, ◌<◌};
ghost use Rattle.rules.specs.Bytes.{from};
ghost use Rattle.rules.specs.Tables.{in_khz, carrier_khz};
ghost use Rattle.rules.specs.Section.{without_crc};
ghost use Rattle.rules.specs.Holding.{section_at, holding_of, live_at};
ghost use Rattle.rules.specs.Layout.{Numbered};
ghost use Rattle.rules.specs.Search.{first};
ghost use Rattle.rules.specs.Standing.{standing_in};
ghost use Rattle.rules.specs.Tuning.{covers, is_carrier, is_mode, is_channel, is_range, defined_by};
ghost use Rattle.rules.specs.Label.{is_name};
ghost use Rattle.rules.specs.declared.Table.{Table};
ghost use Rattle.rules.specs.declared.Table.TheVariants as table;
ghost use Rattle.fields.specs.Outline.{layout_of, outline_of};
ghost use Rattle.search.specs.Entries.{Live, RecordOf, Alike, outline_in, span_of, record_named, entry_number, entry_by, entry_of};
ghost use Rattle.search.specs.Found.{carrier_found, mode_found, channel_found, label_named, Brief};

use cds::Cds;
use dcm::Dcm;
use fields::Outline;
use fields::records::Records;
use mms::Mms;
use ntt::Ntt;
use rules::{Carriers, Channel, Labelled, Measure, Mode, State, Table};
use vcm::Vcm;

pub mod listing; // the entries of all numbers at once

// ---- the records of a live section

// The section in the place of section n of a live table, without its CRC.
fn live_bytes(s: State, store: &[u8], t: Table, n: u8) -> &[u8]
    ensures { result.now ≡ without_crc (section_at store.now (live_at s t n)) }
{
    let section = state::live_section(s, store, t, n);
    &section[..section.len().saturating_sub(4)]
}

// Where the records stand. What is in front of those of a section that reads right is not refused; if it were there would be none.
fn outline_in(t: Table, b: &[u8]) -> Outline
    ensures { result ≡ outline_in (outline_of t b.now) }
{
    tables::outline_of(t, b).unwrap_or_default()
}

// The numbers that a record goes by, and how many indices it takes.
#[derive(Clone, Copy)]
pub struct Span {
    pub first: u32,
    pub count: u8,
    pub takes: u8,
}

// Of the record at a place, which has the given index. (By the table, as a listing is: its records are gone over once, and no search's loop asks it.)
fn span_of(t: Table, b: &[u8], at: usize, index: u32) -> Span
    ensures { result ≡ span_of t index (from b.now at) }
{
    match t {
        Table::Cds => {
            let c = cds::carriers_of(fields::part(b, at, cds::SIZE));
            Span {
                first: index,
                count: c.count,
                takes: c.count,
            }
        }
        Table::Mms => Span {
            first: index,
            count: 1,
            takes: 1,
        },
        Table::Vcm => {
            let number = vcm::number_of(fields::part(b, at, vcm::SIZE));
            Span {
                first: number as u32,
                count: 1,
                takes: 0,
            }
        }
        Table::Dcm => {
            let r = dcm::range_of(fields::part(b, at, dcm::SIZE));
            Span {
                first: index,
                count: r.count,
                takes: r.count,
            }
        }
        // a name goes by two numbers, its flag and its number: see `name_entry`
        Table::Ntt => Span {
            first: 0,
            count: 0,
            takes: 0,
        },
    }
}

// Whether x is one of the n numbers from `first` on.
#[tactic(auto, unfolding(rules::specs::Tuning::covers))]
fn covered(first: u32, n: u8, x: u32) -> bool
    ensures { result ≡ covers first n x }
{
    first <= x && x - first < n as u32
}

// ---- the search

// The entry of a record: one more than its place in the store, and above 32 bits its index. (A number and no `Option` of two: that has 12 bytes
// for 8 in listings of 4,096, and to mark one number with it takes 14 % more instructions.)
fn entry_at(place: usize, index: u32) -> u64
    requires { place < 2147483648 }
    ensures { result ≡ 1 + place + index * 2 ^ 32 }
{
    1 + place as u64 + index as u64 * 4294967296
}

// A table that is searched: how its records are asked, and whether one of them is the one that is sought. A search is written once, over its
// table as a type, of which the compiler makes a loop for each table: a loop that knows its table is what it makes fast.
trait Searched: Records + Copy {
    ghost TABLE: { Table };

    const TABLE: Table;

    // what a record is asked for by
    type Key: Copy;

    ghost goes_by: { Self.Key → Numbered (RecordOf TABLE) → Bool };

    // Its records, as what is in front of them says.
    fn rows(included: u8) -> Self
        ensures { Alike (Self.layout result) (layout_of TABLE included) };
    // Whether the record with these bytes, which has the given index, goes by a key.
    fn is_sought(key: Self::Key, index: u32, r: &[u8]) -> bool
        ensures { result ≡ goes_by key (record { index = index; what = (layout_of TABLE 0).block.look r.now }) };
}

impl Searched for Cds {
    ghost TABLE = { table.Cds };

    const TABLE: Table = Table::Cds;

    type Key = u16;

    ghost goes_by = { is_carrier };

    fn rows(included: u8) -> Cds {
        Cds
    }

    fn is_sought(key: u16, index: u32, r: &[u8]) -> bool {
        covered(index, cds::carriers_of(r).count, key as u32)
    }
}

impl Searched for Mms {
    ghost TABLE = { table.Mms };

    const TABLE: Table = Table::Mms;

    type Key = u16;

    ghost goes_by = { is_mode };

    fn rows(included: u8) -> Mms {
        Mms
    }

    fn is_sought(key: u16, index: u32, r: &[u8]) -> bool {
        index == key as u32
    }
}

impl Searched for Vcm {
    ghost TABLE = { table.Vcm };

    const TABLE: Table = Table::Vcm;

    type Key = u16;

    ghost goes_by = { is_channel };

    fn rows(included: u8) -> Vcm {
        Vcm { included }
    }

    fn is_sought(key: u16, index: u32, r: &[u8]) -> bool {
        vcm::number_of(r) == key
    }
}

impl Searched for Dcm {
    ghost TABLE = { table.Dcm };

    const TABLE: Table = Table::Dcm;

    type Key = u16;

    ghost goes_by = { is_range };

    fn rows(included: u8) -> Dcm {
        Dcm
    }

    fn is_sought(key: u16, index: u32, r: &[u8]) -> bool {
        covered(index, dcm::range_of(r).count, key as u32)
    }
}

impl Searched for Ntt {
    ghost TABLE = { table.Ntt };

    const TABLE: Table = Table::Ntt;

    type Key = (u8, u16);

    ghost goes_by = { λ key. is_name key.0 key.1 };

    fn rows(included: u8) -> Ntt {
        Ntt
    }

    fn is_sought(key: (u8, u16), index: u32, r: &[u8]) -> bool {
        ntt::is_name(r, key.0, key.1)
    }
}

// The entry of the first record of a section that goes by a key, or 0.
fn entry_within<R: Searched>(s: State, store: &[u8], i: u8, key: R::Key) -> u64
    requires live { Live s store.now R.TABLE }
    requires one { i ≤ (holding_of s R.TABLE).live.last }
    ensures { result ≡ entry_number (first (λ x. R.goes_by key x.row) (standing_in s store.now R.TABLE i)) }
{
    let t = R::TABLE;
    let h = state::holding_of(s, t);
    let start = state::place_of(s, t, h.half, i);
    let b = live_bytes(s, store, t, i);
    let walk = outline_in(t, b);
    let rows = R::rows(walk.included);
    let mut at = walk.at;
    let mut index = walk.first as u32;
    for k in 0..walk.count {
        let size = rows.size(b, at);
        let Ok(next) = fields::past_counted(b, at + size, rows.described()) else {
            break;
        };
        let r = &b[at..at + size];
        if R::is_sought(key, index, r) {
            return entry_at(start + at, index);
        }
        index = index + rows.takes(r) as u32;
        at = next;
    }
    0
}

// Of the first record of a live table that goes by a key, lowest section first, or 0.
fn entry_in<R: Searched>(s: State, store: &[u8], key: R::Key) -> u64
    requires { Live s store.now R.TABLE }
    ensures { result ≡ entry_by s store.now R.TABLE (R.goes_by key) }
{
    let h = state::holding_of(s, R::TABLE);
    for i in 0..=h.live.last {
        let entry = entry_within::<R>(s, store, i, key);
        if entry != 0 {
            return entry;
        }
    }
    0
}

// The entry of the first carrier record that has an index, or 0. (That the table is live is asked of each search's callers, and no type of a live table says
// it: they know it of all tables at once, and would have to make that type anew for each question.)
pub fn carrier_entry(s: State, store: &[u8], number: u16) -> u64
    requires { Live s store.now table.Cds }
    ensures { result ≡ entry_of s store.now table.Cds number }
{
    entry_in::<Cds>(s, store, number)
}

// Of the first mode of an index.
pub fn mode_entry(s: State, store: &[u8], number: u16) -> u64
    requires { Live s store.now table.Mms }
    ensures { result ≡ entry_of s store.now table.Mms number }
{
    entry_in::<Mms>(s, store, number)
}

// Of the first record of a channel: it carries its number itself.
pub fn channel_entry(s: State, store: &[u8], number: u16) -> u64
    requires { Live s store.now table.Vcm }
    ensures { result ≡ entry_of s store.now table.Vcm number }
{
    entry_in::<Vcm>(s, store, number)
}

// Of the first range that covers a channel.
pub fn range_entry(s: State, store: &[u8], number: u16) -> u64
    requires { Live s store.now table.Dcm }
    ensures { result ≡ entry_of s store.now table.Dcm number }
{
    entry_in::<Dcm>(s, store, number)
}

// Of the first name of an application, or of a source, by its number.
pub fn name_entry(s: State, store: &[u8], application: u8, number: u16) -> u64
    requires { Live s store.now table.Ntt }
    ensures { result ≡ entry_by s store.now table.Ntt (is_name application number) }
{
    entry_in::<Ntt>(s, store, (application, number))
}

// ---- what the record of an entry says

// Where the record of an entry stands in the store, where there is one.
fn place_in(entry: u64) -> Option<usize>
    ensures none { result ≡ None → entry ≡ 0 }
    ensures place { IfSome result (λ place. (entry ≡ 0 → ⊥) × (place ≡ (entry - 1) % 4294967296)) }
{
    let place = entry.checked_sub(1)?;
    Some((place % 4294967296) as usize)
}

// A unit of 0 is 10 kHz, 1 is 125 kHz.
fn in_khz(m: Measure) -> u32
    ensures value { result ≡ in_khz m }
    ensures upper_bound { result ≤ 8191875 }
{
    let unit = if m.unit == 0 { 10 } else { 125 };
    m.number as u32 * unit
}

// Carrier k of a record, from 0, is at first + k x spacing.
fn carrier_khz(c: Carriers, k: u8) -> u32
    ensures { result ≡ carrier_khz c k }
{
    let first = in_khz(c.first);
    let spacing = in_khz(c.spacing);
    first + k as u32 * spacing
}

// How far an index is past the first one of its record.
fn beyond(first: u32, index: u8) -> u8
    ensures { result ≡ index - first }
{
    (index as u32).saturating_sub(first) as u8
}

// The frequency in kHz of the carrier of an index, as its record says it: whether the tuner reaches it is judged by `tuner`.
#[tactic(auto, using(crate::proofs::Named::by_entry), unfolding(crate::specs::Found::carrier_found, rules::specs::Tables::cds))]
pub fn carrier_at(store: &[u8], entry: u64, index: u8) -> Option<u32>
    ensures { result ≡ carrier_found index (record_named table.Cds store.now entry) }
{
    let c = cds::carriers_of(fields::part(store, place_in(entry)?, cds::SIZE));
    let first = ((entry - 1) / 4294967296) as u32;
    Some(carrier_khz(c, beyond(first, index)))
}

// The mode.
#[tactic(auto, using(crate::proofs::Named::by_entry), unfolding(crate::specs::Found::mode_found, rules::specs::Tables::mms))]
pub fn mode_at(store: &[u8], entry: u64) -> Option<Mode>
    ensures { result ≡ mode_found (record_named table.Mms store.now entry) }
{
    Some(mms::mode_of(fields::part(store, place_in(entry)?, mms::SIZE)))
}

// The channel record.
#[tactic(auto, using(crate::proofs::Named::by_entry), unfolding(crate::specs::Found::channel_found, rules::specs::Tables::vcm))]
pub fn channel_at(store: &[u8], entry: u64) -> Option<Channel>
    ensures { result ≡ channel_found (record_named table.Vcm store.now entry) }
{
    Some(vcm::channel_of(fields::part(store, place_in(entry)?, vcm::SIZE)))
}

// Whether the range that was found defines its channels.
#[tactic(auto, using(crate::proofs::Named::by_entry), unfolding(rules::specs::Tuning::defined_by, rules::specs::Tables::dcm))]
pub fn defined_at(store: &[u8], entry: u64) -> bool
    ensures { result ≡ defined_by (record_named table.Dcm store.now entry) }
{
    let range = place_in(entry).map(|place| dcm::range_of(fields::part(store, place, dcm::SIZE)));
    range.is_some_and(|r| r.defined == 1)
}

// The label that a name is: where in the store it stands, and its length, the last byte in front of it. Without an entry the
// fallback.
#[tactic(auto, using(crate::proofs::Named::by_entry), unfolding(crate::specs::Found::label_named))]
pub fn label_at(store: &[u8], entry: u64) -> Labelled
    ensures value { result ≡ label_named store.now entry }
    ensures brief { Brief result }
{
    let Some(place) = place_in(entry) else {
        return Labelled::Fallback;
    };
    Labelled::Named {
        start: place + ntt::FRONT,
        size: fields::byte(store, place + ntt::LENGTH) as usize,
    }
}
