// For the tests alone, and no part of the box: the line-up and the labels of an input in memory, so that one start of a program prints many.
#![tactic(auto)]

ghost use Rattle.std.specs.Prelude.{◌≡◌, [], ◌∷◌, ◌++◌, length, take};
ghost use Rattle.rules.specs.Bytes.{word};
ghost use Rattle.rules.specs.Lineup.{fresh_box, lineup};
ghost use Rattle.rules.specs.LabelLines.{labels};
ghost use Rattle.rules.specs.Feeding.{begin, feed_all, finish};
ghost use Rattle.stream.specs.Tallied.{intake_of};
ghost use Rattle.text.specs.Written.{Counts};
ghost use Rattle.runs.specs.Room.{size_in, put_in};

use printout::Printed;
use stream::Tally;

// What a fresh box makes of sections that come as one piece.
fn gather(map: u16, store: &mut [u8], sections: &[u8]) -> Tally
    requires { store.old ≡ (fresh_box map).store }
    ensures { intake_of result store.new [] ≡ finish (feed_all (begin map) (sections.now ∷ [])) }
{
    let fed = stream::feed(stream::begin(map, *b"eng"), store, sections);
    let used = fed.used;
    let tally = fed.tally;
    stream::finish(tally, store, &sections[used..])
}

// The line-up of a whole input, in two buffers.
fn line_up(
    input: &[u8],
    store: &mut [u8],
    heading: &mut [u8; 256],
    lines: &mut [u8; 1183744],
) -> Printed
    requires { store.old ≡ (fresh_box (word 0 input.now)).store }
    ensures lines_after { take result.heading heading.new ++ take result.lines lines.new ≡ lineup input.now }
    ensures counts { Counts result.heading heading.new }
    ensures counts_2 { Counts result.lines lines.new }
{
    if input.len() < 2 {
        return Printed {
            heading: text::refused(heading),
            lines: 0,
        };
    }
    let tally = gather(stream::map_of(input), store, &input[2..]);
    printout::print(tally, store, heading, lines)
}

// The labels of a whole input, in two buffers. (No one function with the line-up: the rule and the length of the lines are each one's own, and what
// is left are two calls.)
fn labels_of(
    input: &[u8],
    store: &mut [u8],
    heading: &mut [u8; 256],
    lines: &mut [u8; 2236416],
) -> Printed
    requires { store.old ≡ (fresh_box (word 0 input.now)).store }
    ensures lines_after { take result.heading heading.new ++ take result.lines lines.new ≡ labels input.now }
    ensures counts { Counts result.heading heading.new }
    ensures counts_2 { Counts result.lines lines.new }
{
    if input.len() < 2 {
        return Printed {
            heading: text::labels_refused(heading),
            lines: 0,
        };
    }
    let tally = gather(stream::map_of(input), store, &input[2..]);
    printout::print_labels(tally, store, heading, lines)
}

// The two parts of a text at the front of `out`, and their length. Nothing, where `out` has no room for it.
fn put_both(out: &mut [u8], heading: &[u8], lines: &[u8]) -> u64
    ensures value { result ≡ size_in (heading.now ++ lines.now) (length out.old) }
    ensures out_after { out.new ≡ put_in (heading.now ++ lines.now) out.old }
{
    let behind = heading.len();
    let more = lines.len();
    if out.len() < behind {
        return 0;
    }
    if out.len() - behind < more {
        return 0;
    }
    fields::put(out, 0, heading);
    fields::put(out, behind, lines);
    behind as u64 + more as u64
}

// The line-up of a whole input at the front of `out`, and its length. Nothing, where `out` has no room for it.
#[unsafe(no_mangle)]
pub extern "C" fn trial_lineup(input: &[u8], out: &mut [u8]) -> u64
    ensures value { result ≡ size_in (lineup input.now) (length out.old) }
    ensures out_after { out.new ≡ put_in (lineup input.now) out.old }
{
    let mut store = [0u8; receiver::STORE];
    let mut heading = [0u8; 256];
    let mut lines = [0u8; printout::LINES];
    let printed = line_up(input, &mut store, &mut heading, &mut lines);
    put_both(out, &heading[..printed.heading], &lines[..printed.lines])
}

// The labels of a whole input, in the same way.
#[unsafe(no_mangle)]
pub extern "C" fn trial_labels(input: &[u8], out: &mut [u8]) -> u64
    ensures value { result ≡ size_in (labels input.now) (length out.old) }
    ensures out_after { out.new ≡ put_in (labels input.now) out.old }
{
    let mut store = [0u8; receiver::STORE];
    let mut heading = [0u8; 256];
    let mut named = [0u8; printout::LABELS];
    let printed = labels_of(input, &mut store, &mut heading, &mut named);
    put_both(out, &heading[..printed.heading], &named[..printed.lines])
}
