// The entries of all numbers at once: a line-up asks every number, so it pays for one walk over a table's records instead of a search
// for each number.
ghost use Rattle.std.specs.Prelude.{◌≡◌, ◌+◌, ◌-◌, ◌≤◌, ◌<◌, length};
ghost use Rattle.rules.specs.Bytes.{from};
ghost use Rattle.rules.specs.Layout.{extent};
ghost use Rattle.fields.specs.Place.{Stands};
ghost use Rattle.fields.specs.Outline.{layout_of};
ghost use Rattle.search.specs.Entries.{Live, descriptors};
ghost use Rattle.search.specs.Listing.{Lists, Blank, Marked, Entered};

use rules::{Refusal, State, Table};

// A number gets an entry, unless it has one: the first record that goes by a number is its record.
fn mark_one(entries: &mut [u64], number: usize, entry: u64)
    ensures { Marked number 1 entry entries.old entries.new }
{
    if number < entries.len() && entries[number] == 0 {
        entries[number] = entry;
    }
}

// So many numbers get an entry, unless they have one.
fn mark(entries: &mut [u64], first: u32, count: u8, entry: u64)
    ensures { Marked first count entry entries.old entries.new }
{
    for i in 0..count {
        mark_one(entries, first as usize + i as usize, entry);
    }
}

// The record at a place of its section, and at another of the store, gets its entry under all numbers that it goes by. Answers
// how many indices it takes.
fn list_one(entries: &mut [u64], t: Table, b: &[u8], at: usize, index: u32, place: usize) -> u8
    requires { place < 2147483648 }
    ensures { Entered t index (from b.now at) place entries.old entries.new result }
{
    let span = crate::span_of(t, b, at, index);
    let entry = crate::entry_at(place, index);
    mark(entries, span.first, span.count, entry);
    span.takes
}

// Over the record at a place, which is there whole, and its descriptors.
fn past_record(t: Table, b: &[u8], at: usize, included: u8) -> Result<usize, Refusal>
    requires { extent (layout_of t included).block (from b.now at) ≤ length b.now - at }
    ensures { Stands b.now result (descriptors t included b.now at) }
{
    match t {
        Table::Cds => fields::past_counted(b, at + cds::SIZE, true),
        Table::Mms => fields::past_counted(b, at + mms::SIZE, true),
        Table::Vcm => fields::past_counted(b, at + vcm::SIZE, included == 1),
        Table::Dcm => fields::past_counted(b, at + dcm::SIZE, false),
        Table::Ntt => fields::past_counted(b, at + ntt::name_size(b, at), true),
    }
}

// The entry of every number that `entries` has room for.
pub fn list_records(s: State, store: &[u8], t: Table, entries: &mut [u64])
    requires live { Live s store.now t }
    requires blank { Blank entries.old }
    ensures lists { Lists s store.now t entries.new }
    ensures entries_len_unchanged { length entries.new ≡ length entries.old }
{
    let h = state::holding_of(s, t);
    for i in 0..=h.live.last {
        let start = state::place_of(s, t, h.half, i);
        let b = crate::live_bytes(s, store, t, i);
        let walk = crate::outline_in(t, b);
        let mut at = walk.at;
        let mut index = walk.first as u32;
        for k in 0..walk.count {
            let Ok(next) = past_record(t, b, at, walk.included) else {
                break;
            };
            let takes = list_one(entries, t, b, at, index, start + at);
            index = index + takes as u32;
            at = next;
        }
    }
}
