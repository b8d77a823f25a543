// The records of every table, as the rules have them: a layout, and the walk over so many records of it, once for all tables.
ghost use Rattle.std.specs.Prelude.{◌≡◌, ℕ, true, ◌+◌, ◌≤◌, ◌<◌, ◌&&◌, length, IfSome, Ok};
ghost use Rattle.rules.specs.Bytes.{from};
ghost use Rattle.rules.specs.Descriptors.{counted};
ghost use Rattle.rules.specs.Layout.{Layout, extent, entry, records};
ghost use Rattle.fields.specs.Place.{Stands, Reaches, Passes};

use crate::Outline;
use rules::Refusal;

// What the rules' layout of a table asks of a record's bytes. Each table has one; the rule is its ghost `layout`.
pub trait Records {
    ghost Row: { Type 0 };

    ghost layout: { Self → Layout Row };

    // Bytes of the record at a place.
    fn size(&self, b: &[u8], at: usize) -> usize
        ensures value { result ≡ extent (layout self.now).block (from b.now at) }
        ensures small { (0 < result) × (result < 65536) };
    // Its zero bits are 0: else 9.
    fn zeros(&self, r: &[u8]) -> bool
        ensures { result ≡ (layout self.now).block.zeros r.now };
    // It is within its limits at an index: else 10.
    fn fair(&self, index: u16, r: &[u8]) -> bool
        ensures { result ≡ (layout self.now).fair index ((layout self.now).block.look r.now) };
    // Whether both are so, by the quickest way to tell it; `false` says nothing.
    fn is_right(&self, index: u16, r: &[u8]) -> bool
        ensures { result ≡ true → ((layout self.now).block.zeros r.now && (layout self.now).fair index ((layout self.now).block.look r.now)) ≡ true }
    {
        self.zeros(r) && self.fair(index, r)
    }

    // How many indices it takes.
    fn takes(&self, r: &[u8]) -> u16
        ensures { result ≡ (layout self.now).takes ((layout self.now).block.look r.now) };
    // Whether a descriptor count and descriptors follow it.
    fn described(&self) -> bool
        ensures { result ≡ (layout self.now).described };

    ghost limited: { (s : Self) (index : ℕ) (r : Row) → index < 65536 → (layout s).fair index r ≡ true → index + (layout s).takes r < 65536 };
}

// Where a walk has come to: a place, and the index of the record that begins there.
#[derive(Clone, Copy)]
pub struct Reached {
    pub at: usize,
    pub index: u16,
}

// Over the record at a place, which takes indices from the given one on, and over its descriptors; or 8, 9, 10.
fn past_record<R: Records>(rows: &R, b: &[u8], at: usize, index: u16) -> Result<Reached, Refusal>
    ensures { Passes (R.layout rows.now) b.now at index result }
{
    let size = rows.size(b, at);
    if crate::short(b, at, size) {
        return Err(Refusal::CutShort);
    }
    let r = &b[at..at + size];
    if !rows.zeros(r) {
        return Err(Refusal::ZeroBits);
    }
    if !rows.fair(index, r) {
        return Err(Refusal::OutOfLimits);
    }
    let next = crate::past_counted(b, at + size, rows.described())?;
    Ok(Reached {
        at: next,
        index: index + rows.takes(r),
    })
}

// Over a record that is right and has no descriptors, but their count, 0, where they have one: most are so. `None` says nothing.
fn past_plain<R: Records>(rows: &R, b: &[u8], at: usize, index: u16) -> Option<Reached>
    ensures { IfSome result (λ x. Passes (R.layout rows.now) b.now at index (Ok x)) }
{
    let size = rows.size(b, at);
    let described = rows.described();
    let whole = size + described as usize;
    if crate::short(b, at, whole) {
        return None;
    }
    if described && b[at + size] != 0 {
        return None;
    }
    let r = &b[at..at + size];
    if !rows.is_right(index, r) {
        return None;
    }
    Some(Reached {
        at: at + whole,
        index: index + rows.takes(r),
    })
}

// Over the records that are right and have no descriptors, as far as they go: the short way for what a plant mostly sends. (No `for`: it answers where
// it stopped and how many are left, which the outline that it goes by holds.)
fn skim<R: Records>(rows: &R, b: &[u8], o: Outline) -> Outline
    requires { 0 < o.count }
    ensures { Reaches (R.layout rows.now) b.now o.at o.first o.count result.at result.first result.count }
{
    let mut reached = o;
    while 0 < reached.count {
        let Some(next) = past_plain(rows, b, reached.at, reached.first) else {
            break;
        };
        reached.at = next.at;
        reached.first = next.index;
        reached.count -= 1;
    }
    reached
}

// The place behind the records of an outline; or 8, 9, 10. The short way first, and from where that stops record by record.
// With no record there is nothing to refuse: the outline's place, or the end where it lies behind it.
pub fn past_records<R: Records>(rows: &R, b: &[u8], o: Outline) -> Result<usize, Refusal>
    ensures { Stands b.now result (records (R.layout rows.now) o.count o.first (from b.now o.at)) }
{
    if o.count == 0 {
        return crate::past_counted(b, o.at, false);
    }
    let plain = skim(rows, b, o);
    let mut reached = Reached {
        at: plain.at,
        index: plain.first,
    };
    for done in 0..plain.count {
        reached = past_record(rows, b, reached.at, reached.index)?;
    }
    Ok(reached.at)
}
