// The program: a capture in, the labels of its channels out. Standard input as for `lineup`; what is printed is the rules' `labels`. A read
// that fails is taken for the end of the input.
#![tactic(auto)]

ghost use Rattle.std.specs.Prelude.{◌≡◌, ◌≤◌, length, take};
ghost use Rattle.rules.specs.Bytes.{word};
ghost use Rattle.rules.specs.Lineup.{fresh_box};
ghost use Rattle.rules.specs.LabelLines.{labels};
ghost use Rattle.text.specs.Written.{Counts};
ghost use Rattle.printout.specs.Shown.{Shown};

use printout::Printed;
use std::io::Read;

// The labels, in the two buffers, of an input that begins with `head`; the rest of it is read. (The program `lineup` is like this one: rule,
// length of the lines and words are each one's own, and what is left are two calls.)
fn labels_of<R: Read>(
    reader: &mut R,
    head: &[u8],
    store: &mut [u8],
    buffer: &mut [u8; 65536],
    heading: &mut [u8; 256],
    lines: &mut [u8; 2236416],
) -> Printed
    requires head_len_bound { length head.now ≤ 2 }
    requires store_value { store.old ≡ (fresh_box (word 0 head.now)).store }
    ensures shown { Shown labels head.now (take result.heading heading.new) (take result.lines lines.new) }
    ensures counts { Counts result.heading heading.new }
    ensures counts_2 { Counts result.lines lines.new }
{
    if head.len() < 2 {
        return Printed {
            heading: text::labels_refused(heading),
            lines: 0,
        };
    }
    let gathered = capture::gather(reader, stream::map_of(head), *b"eng", store, buffer);
    let tally = gathered.tally;
    printout::print_labels(tally, store, heading, lines)
}

// Writes to standard output, and says so where that can't be done.
fn write(rt: &(impl Print + Eprint), text: &[u8]) -> bool {
    if rt.write_all(text).is_ok() {
        return true;
    }
    let _ = rt.eprintln("labels: standard output can't be written");
    false
}

fn main(rt: HostRuntime) {
    let mut store = [0u8; receiver::STORE];
    let mut buffer = [0u8; capture::PIECE];
    let mut heading = [0u8; 256];
    let mut lines = [0u8; printout::LABELS];
    let mut map = [0u8; 2];
    let mut input = rt.stdin();
    let head: &[u8] = match input.read_exact(&mut map) {
        Ok(()) => &map,
        Err(_) => &[],
    };
    let printed = labels_of(
        &mut input,
        head,
        &mut store,
        &mut buffer,
        &mut heading,
        &mut lines,
    );
    if write(&rt, &heading[..printed.heading]) {
        write(&rt, &lines[..printed.lines]);
    }
}
