// A capture read piece by piece: the sections that are whole are offered and counted, and the bytes of one that is not whole
// yet are kept at the front of the buffer for the next piece. By the rules' `in_pieces` it does not matter how a capture is cut.
#![tactic(auto)]

ghost use Rattle.std.specs.Prelude.{◌≡◌, ◌+◌, ◌-◌, ◌≤◌, [], ◌∷◌, length, take};
ghost use Rattle.rules.specs.Bytes.{word, from};
ghost use Rattle.rules.specs.Holding.{put};
ghost use Rattle.rules.specs.Feeding.{taking, unfinished};
ghost use Rattle.rules.specs.Feeding as rule;
ghost use Rattle.stream.specs.Tallied.{begun, intake_of, Room, Grew};

use rules::State;

// The state of the box, how many sections it was offered, and how many of them it refused.
#[derive(Clone, Copy)]
pub struct Tally {
    pub state: State,
    pub sections: u64,
    pub refused: u64,
}

// After a piece: the tally, and how many bytes the whole sections took.
#[derive(Clone, Copy)]
pub struct Fed {
    pub tally: Tally,
    pub used: usize,
}

// After a piece in a buffer: the tally, and how many bytes at the front of the buffer are kept. (A length beside a lent buffer, here and in those who
// read into it: there is no heap.)
#[derive(Clone, Copy)]
pub struct Absorbed {
    pub tally: Tally,
    pub kept: usize,
}

// The map number that an input begins with.
pub fn map_of(input: &[u8]) -> u16
    ensures { result ≡ word 0 input.now }
{
    fields::word(input, 0)
}

// A fresh box of any language, which was offered nothing yet. The rules' texts are those of an English box; that it is one is asked for by
// `capture::gather`, whose promise speaks of their box, and not here.
pub fn begin(map: u16, language: [u8; 3]) -> Tally
    ensures { result ≡ begun map language }
{
    Tally {
        state: receiver::start(map, language),
        sections: 0,
        refused: 0,
    }
}

// Offers one section.
fn offer_one(t: Tally, store: &mut [u8], section: &[u8]) -> Tally
    requires { Room t 1 }
    ensures store_after { intake_of result store.new [] ≡ taking (intake_of t store.old []) (section.now ∷ []) [] }
    ensures grew { Grew t result 1 }
{
    let sections = t.sections + 1;
    match receiver::offer(t.state, store, section) {
        Ok(offered) => Tally {
            state: offered.state,
            sections,
            refused: t.refused,
        },
        Err(_) => Tally {
            state: t.state,
            sections,
            refused: t.refused + 1,
        },
    }
}

// Offers the whole sections at the front of a piece.
pub fn feed(t: Tally, store: &mut [u8], piece: &[u8]) -> Fed
    requires { Room t (length piece.now) }
    ensures used_after { intake_of result.tally store.new (from piece.now result.used) ≡ rule.feed (intake_of t store.old []) piece.now }
    ensures grew { Grew t result.tally (length piece.now) }
    ensures used_in_bounds { (result.used ≤ length piece.now) × (length piece.now ≤ result.used + 4097) }
{
    let mut tally = t;
    let mut used = 0;
    for offers in 0..piece.len() {
        let rest = &piece[used..];
        let size = 3 + fields::length_of(rest) as usize;
        if rest.len() < size {
            return Fed { tally, used };
        }
        tally = offer_one(tally, store, &rest[..size]);
        used += size;
    }
    Fed { tally, used }
}

// Moves the bytes from `used` to `have` to the front, and answers how many they are. (One by one, as `fields::put`, and no `copy_within`.)
fn keep(buffer: &mut [u8], used: usize, have: usize) -> usize
    requires { (used ≤ have) × (have ≤ length buffer.old) }
    ensures value { result ≡ have - used }
    ensures buffer_after { buffer.new ≡ put buffer.old 0 (take (have - used) (from buffer.old used)) }
{
    let n = have - used;
    for i in 0..n {
        buffer[i] = buffer[used + i];
    }
    n
}

// A piece of `got` bytes was read into the buffer, behind what was kept there: offers the whole sections of both together, and
// keeps what is behind them.
pub fn absorb(t: Tally, store: &mut [u8], buffer: &mut [u8], kept: usize, got: usize) -> Absorbed
    requires room { Room t (length buffer.old) }
    requires got_in_bounds { kept + got ≤ length buffer.old }
    ensures buffer_after { intake_of result.tally store.new (take result.kept buffer.new) ≡ rule.feed (intake_of t store.old (take kept buffer.old)) (take got (from buffer.old kept)) }
    ensures buffer_after_2 { buffer.new ≡ put buffer.old 0 (unfinished (take (kept + got) buffer.old)) }
    ensures grew { Grew t result.tally (length buffer.old) }
    ensures kept_value { (result.kept ≡ length (unfinished (take (kept + got) buffer.old))) × (result.kept ≤ 4097) }
{
    let have = kept + got;
    let fed = feed(t, store, &buffer[..have]);
    let tally = fed.tally;
    let kept = keep(buffer, fed.used, have);
    Absorbed { tally, kept }
}

// At the end of the input: an unfinished last section is offered as it is.
pub fn finish(t: Tally, store: &mut [u8], kept: &[u8]) -> Tally
    requires { Room t 1 }
    ensures { intake_of result store.new [] ≡ rule.finish (intake_of t store.old kept.now) }
{
    if kept.is_empty() {
        return t;
    }
    offer_one(t, store, kept)
}
