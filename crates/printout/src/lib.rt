// What is printed of a box, in two lent buffers: the lines in front, and one line for each channel that tunes or is an
// application, ascending: that of the line-up, or that of its label. The checks of tuning are paid once for all channels.
#![tactic(auto)]

ghost use Rattle.std.specs.Prelude.{◌≡◌, ◌+◌, ◌*◌, ◌≤◌, Bool, true, false, length};
ghost use mathlib.Core.List.{flatten};
ghost use Rattle.rules.specs.Tuning.{tune};
ghost use Rattle.rules.specs.Lineup.{lines_of};
ghost use Rattle.rules.specs.Refusals.{by_number};
ghost use Rattle.rules.specs.LabelLines.{label_lines_of};
ghost use Rattle.text.specs.Written.{Wrote, Counts};
ghost use Rattle.printout.specs.Lines.{box_of, heading_of, label_heading_of, line_of, longest, lines_in, Adds, Below};

use rules::{Refusal, State, Table, Tuned};
use search::listing;
use stream::Tally;
use tuner::Lookup;

// Room for 4,096 lines of 289 bytes, the longest if every number had 20 digits.
pub const LINES: usize = 1183744;

// And for 4,096 lines of labels, of 546 bytes: a name has at most 255 bytes, of two digits each.
pub const LABELS: usize = 2236416;

// How many lines were written, and how many bytes they take.
#[derive(Clone, Copy)]
pub struct Lines {
    pub count: u64,
    pub size: usize,
}

// How many bytes of each buffer were written. (Lengths beside lent buffers: there is no heap.)
#[derive(Clone, Copy)]
pub struct Printed {
    pub heading: usize,
    pub lines: usize,
}

// Which of the two texts is printed: the line-up of the channels, or their labels.
trait Sheet {
    ghost labels: { Bool };

    // The line of a channel of a box whose checks have passed, where the line-up has one for what it tunes to.
    fn put_line(
        found: &Lookup,
        out: &mut [u8],
        at: usize,
        number: u16,
        tuned: Result<Tuned, Refusal>,
    ) -> usize
        requires labels_in_bounds { at + longest labels ≤ length out.old }
        requires tuned_value { by_number tuned ≡ tune found.now.state found.now.store.now number }
        ensures { (result ≤ at + longest labels) × Wrote out.old at (flatten (line_of labels (box_of found.now.state found.now.store.now) number)) out.new result };
}

struct LineUp;

impl Sheet for LineUp {
    ghost labels = { false };

    fn put_line(
        found: &Lookup,
        out: &mut [u8],
        at: usize,
        number: u16,
        tuned: Result<Tuned, Refusal>,
    ) -> usize {
        text::channel_line(out, at, number, tuned)
    }
}

struct Labels;

impl Sheet for Labels {
    ghost labels = { true };

    // The fallback that is lent is empty.
    fn put_line(
        found: &Lookup,
        out: &mut [u8],
        at: usize,
        number: u16,
        tuned: Result<Tuned, Refusal>,
    ) -> usize {
        if text::lines_of(number, tuned) == 0 {
            return at;
        }
        let label = label::label(found.state, found.store, b"", number);
        text::label_line(out, at, number, label)
    }
}

// The line of one channel, if it has one, behind the lines so far.
fn add_line<S: Sheet>(found: &Lookup, out: &mut [u8], number: u16, lines: Lines) -> Lines
    requires { (lines.size + longest S.labels ≤ length out.old) × (lines.count ≤ number) }
    ensures { Adds (longest S.labels) (line_of S.labels (box_of found.now.state found.now.store.now) number) out.old lines out.new result }
{
    let tuned = found.look_up(number);
    let more = text::lines_of(number, tuned);
    let size = S::put_line(found, out, lines.size, number, tuned);
    Lines {
        count: lines.count + more,
        size,
    }
}

// The lines of all channels of a box whose checks have passed.
fn listed_lines<S: Sheet>(found: &Lookup, out: &mut [u8]) -> Lines
    requires { length out.old ≡ 4096 * longest S.labels }
    ensures { Below (longest S.labels) (line_of S.labels (box_of found.now.state found.now.store.now)) 4096 out.old out.new result }
{
    let mut lines = Lines { count: 0, size: 0 };
    for number in 0..4096 {
        lines = add_line::<S>(found, out, number, lines);
    }
    lines
}

// The lines of all channels of any box, by listings of the four tables.
fn channel_lines<S: Sheet>(state: State, store: &[u8], out: &mut [u8]) -> Lines
    requires { length out.old ≡ 4096 * longest S.labels }
    ensures wrote { Wrote out.old 0 (flatten (lines_in S.labels (box_of state store.now))) out.new result.size }
    ensures count_value { result.count ≡ length (lines_in S.labels (box_of state store.now)) }
    ensures counts { Counts result.size out.new }
{
    if let Err(_) = tuner::check(state, store) {
        return Lines { count: 0, size: 0 };
    }
    let mut ranges = [0u64; 4096];
    let mut channels = [0u64; 4096];
    let mut carriers = [0u64; 256];
    let mut modes = [0u64; 256];
    listing::list_records(state, store, Table::Dcm, &mut ranges);
    listing::list_records(state, store, Table::Vcm, &mut channels);
    listing::list_records(state, store, Table::Cds, &mut carriers);
    listing::list_records(state, store, Table::Mms, &mut modes);
    let found = Lookup {
        state,
        store,
        ranges: &ranges,
        channels: &channels,
        carriers: &carriers,
        modes: &modes,
    };
    listed_lines::<S>(&found, out)
}

// The whole line-up of a tally: the first bytes of the one buffer, and behind them the first bytes of the other.
pub fn print(t: Tally, store: &[u8], heading: &mut [u8; 256], lines: &mut [u8; 1183744]) -> Printed
    ensures wrote { Wrote heading.old 0 (heading_of t store.now) heading.new result.heading }
    ensures wrote_2 { Wrote lines.old 0 (flatten (lines_of (box_of t.state store.now))) lines.new result.lines }
    ensures counts { Counts result.heading heading.new }
    ensures counts_2 { Counts result.lines lines.new }
{
    let state = t.state;
    let written = channel_lines::<LineUp>(state, store, lines);
    let size = text::heading(heading, state, t.sections, t.refused, written.count);
    Printed {
        heading: size,
        lines: written.size,
    }
}

// The labels of a tally, in the same way. (No one function of both: heading, length of the lines and rule are each one's own, and what is left are
// two calls.)
pub fn print_labels(
    t: Tally,
    store: &[u8],
    heading: &mut [u8; 256],
    lines: &mut [u8; 2236416],
) -> Printed
    ensures wrote { Wrote heading.old 0 (label_heading_of t store.now) heading.new result.heading }
    ensures wrote_2 { Wrote lines.old 0 (flatten (label_lines_of (box_of t.state store.now))) lines.new result.lines }
    ensures counts { Counts result.heading heading.new }
    ensures counts_2 { Counts result.lines lines.new }
{
    let state = t.state;
    let written = channel_lines::<Labels>(state, store, lines);
    let size = text::label_heading(heading, state, written.count);
    Printed {
        heading: size,
        lines: written.size,
    }
}
