// The closing list: its revision, and the first descriptor of a tag in it.
ghost use Rattle.std.specs.Prelude.{◌≡◌, true, [], ◌∷◌};
ghost use Rattle.rules.specs.Bytes.{from};
ghost use Rattle.rules.specs.Descriptors.{closing};
ghost use Rattle.rules.specs.Refusals.{by_number};
ghost use Rattle.rules.specs.Section.{read, revision};
ghost use Rattle.section.specs.Closes.{closed_of, seen_of, seen_with, filled, first_in, Lone};

use rules::{Part, Refusal, Revision};

// The revision descriptors met so far; of a single one, where its body is. (Three cases, and none of them a failure: an `Option` in an
// `Option` would say less.)
#[derive(Clone, Copy)]
pub enum Seen {
    Nothing,
    Once { start: usize, size: usize },
    Again,
}

// One more, with its body.
#[tactic(auto, unfolding(crate::specs::Closes::seen_with))]
fn seen_with(seen: Seen, start: usize, size: usize) -> Seen
    ensures { result ≡ seen_with seen start size }
{
    match seen {
        Seen::Nothing => Seen::Once { start, size },
        Seen::Once { .. } | Seen::Again => Seen::Again,
    }
}

// What a single revision descriptor says by its body.
#[tactic(auto, unfolding(rules::specs::Section::read, rules::specs::Section::revision, rules::specs::Bytes::unless))]
fn revised(body: &[u8]) -> Result<Revision, Refusal>
    ensures { by_number result ≡ read (revision (body.now ∷ [])) }
{
    if body.len() < 3 {
        return Err(Refusal::BadRevision);
    }
    let version = fields::byte(body, 0) % 32;
    let number = fields::byte(body, 1);
    let last = fields::byte(body, 2);
    if last < number {
        return Err(Refusal::BadRevision);
    }
    Ok(Revision {
        version,
        number,
        last,
    })
}

// By the revision descriptors of the whole list: none and several are refused as 11.
#[tactic(auto, unfolding(rules::specs::Section::read, rules::specs::Section::revision, crate::specs::Closes::seen_of))]
fn judged(b: &[u8], seen: Seen) -> Result<Revision, Refusal>
    ensures { by_number result ≡ read (revision (seen_of b.now seen)) }
{
    match seen {
        Seen::Once { start, size } => revised(fields::part(b, start, size)),
        Seen::Nothing | Seen::Again => Err(Refusal::BadRevision),
    }
}

// Any closing list from a place on. (No `for`, here and below: how far it steps is read from the bytes.)
fn close_list(b: &[u8], start: usize) -> Result<Revision, Refusal>
    ensures { by_number result ≡ read (closed_of (from b.now start)) }
{
    let mut at = start;
    let mut seen = Seen::Nothing;
    while at < b.len() {
        let next = fields::past_one(b, at)?;
        if b[at] == 0x93 {
            seen = seen_with(seen, at + 2, fields::byte(b, at + 1) as usize);
        }
        at = next;
    }
    judged(b, seen)
}

// Whether a single revision descriptor fills the room from a place on: most sections end so.
fn is_lone_revision(b: &[u8], start: usize) -> bool
    ensures { result ≡ true → Lone b.now start }
{
    if fields::short(b, start, 2) {
        return false;
    }
    b[start] == 0x93 && b.len() - (start + 2) == b[start + 1] as usize
}

// The closing list from a place on, up to the end: 8 where it doesn't fill the room, then its revision, 11.
pub fn close(b: &[u8], start: usize) -> Result<Revision, Refusal>
    ensures { by_number result ≡ read (closed_of (from b.now start)) }
{
    if is_lone_revision(b, start) {
        return revised(&b[start + 2..]);
    }
    close_list(b, start)
}

// The first descriptor of a tag in a closing list that is whole.
pub fn first_of(b: &[u8], start: usize, tag: u8) -> Result<Option<Part>, Refusal>
    requires { filled (closing (from b.now start)) ≡ true }
    ensures { by_number result ≡ first_in tag start (closing (from b.now start)) }
{
    let mut at = start;
    while at < b.len() {
        let next = fields::past_one(b, at)?;
        if b[at] == tag {
            return Ok(Some(Part {
                start: at + 2,
                size: fields::byte(b, at + 1) as usize,
            }));
        }
        at = next;
    }
    Ok(None)
}
