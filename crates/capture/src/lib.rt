// A capture read from a reader, piece by piece: the loop of every program that follows one. After each read the sections
// that are whole then are offered, and at the end of the input what is kept of the last. What a read that fails left unread is
// not offered, and the answer says that one failed.
#![tactic(auto)]

ghost use Rattle.std.specs.Prelude.{◌≡◌, ◌+◌, ◌≤◌, ◌<◌, List, length};
ghost use Rattle.rules.specs.Holding.{put};
ghost use Rattle.rules.specs.Lineup.{english, fresh_box};
ghost use Rattle.stream.specs.Tallied.{Room, Grew};
ghost use Rattle.capture.specs.Read.{Given, got_by, FollowedAs, GatheredAs};

use std::io::Read;
use stream::{Absorbed, Tally};

// Bytes of the buffer: that many a read can give at once.
pub const PIECE: usize = 65536;

// A proved loop has to end, and nothing says that an input does: no run uses up this many reads. With them at most 2^63
// sections are counted.
const READS: u64 = 140737488355328;

// What a read gave: no bytes at the end of the input, and where it failed. (The flag beside the count, here and below, makes no `Result`: what
// is held at the end counts, whether or not a read that failed was the end; and so a read that fails is one of no bytes.)
#[derive(Clone, Copy)]
pub struct Got {
    pub count: usize,
    pub failed: bool,
}

// What is held at the end of the input, and whether a read that failed ended it.
#[derive(Clone, Copy)]
pub struct Followed {
    pub held: Absorbed,
    pub failed: bool,
}

// The tally of the whole input, and whether a read that failed ended it.
#[derive(Clone, Copy)]
pub struct Gathered {
    pub tally: Tally,
    pub failed: bool,
}

// Reads once.
fn read_some<R: Read>(reader: &mut R, part: &mut [u8]) -> Got
    requires { 0 < length part.old }
    ensures { (given : Given) × (result ≡ got_by given) × (part.new ≡ given.part) }
{
    let (count, failed) = match reader.read(part) {
        Ok(count) => (count, false),
        Err(_) => (0, true),
    };
    Got { count, failed }
}

// Reads once, behind the bytes that are kept.
fn refill<R: Read>(reader: &mut R, buffer: &mut [u8], kept: usize) -> Got
    requires { kept < length buffer.old }
    ensures value { (given : Given) × (result ≡ got_by given) × (buffer.new ≡ put buffer.old kept given.part) }
    ensures count_in_bounds { kept + result.count ≤ length buffer.old }
{
    read_some(reader, &mut buffer[kept..])
}

// All that can be read, up to the end of the input or a read that fails.
pub fn follow<R: Read>(
    reader: &mut R,
    start: Tally,
    store: &mut [u8],
    buffer: &mut [u8],
) -> Followed
    requires buffer_len { length buffer.old ≡ 65536 }
    requires room { Room start 9223372036854775808 }
    ensures followed_as { (given : List Given) × FollowedAs given start store.old buffer.old result store.new buffer.new }
    ensures grew { Grew start result.held.tally 9223372036854775808 }
    ensures kept_bound { result.held.kept ≤ 4097 }
{
    let mut held = Absorbed {
        tally: start,
        kept: 0,
    };
    for made in 0..READS {
        let tally = held.tally;
        let got = refill(reader, buffer, held.kept);
        if got.count == 0 {
            return Followed {
                held,
                failed: got.failed,
            };
        }
        held = stream::absorb(tally, store, buffer, held.kept, got.count);
    }
    Followed {
        held,
        failed: false,
    }
}

// What a fresh box has made of the sections of the whole input. Its language is the one that the rules' programs start with, since their texts
// are what is printed of it; the bytes themselves stand in the programs.
pub fn gather<R: Read>(
    reader: &mut R,
    map: u16,
    language: [u8; 3],
    store: &mut [u8],
    buffer: &mut [u8],
) -> Gathered
    requires buffer_len { length buffer.old ≡ 65536 }
    requires language_value { language ≡ english }
    requires store_value { store.old ≡ (fresh_box map).store }
    ensures { (given : List Given) × GatheredAs given map buffer.old result store.new buffer.new }
{
    let followed = follow(reader, stream::begin(map, language), store, buffer);
    let kept = followed.held.kept;
    let tally = followed.held.tally;
    let failed = followed.failed;
    let tally = stream::finish(tally, store, &buffer[..kept]);
    Gathered { tally, failed }
}
