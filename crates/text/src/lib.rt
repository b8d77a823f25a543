// The lines of the printed line-up and labels, written into a lent buffer at a place; every other byte of it stays. A number of 64 bits
// has at most 20 digits, so each part of a line asks for room by its own text and 20 bytes for a number.
#![tactic(auto)]

ghost use Rattle.std.specs.Prelude.{◌≡◌, ◌+◌, ◌*◌, ◌<◌, ◌≤◌, length};
ghost use mathlib.Core.List.{[], ◌∷◌, ◌++◌, flatten};
ghost use Rattle.rules.specs.Lineup.{text, decimal, version, version_lines, mode_fields, channel_line};
ghost use Rattle.rules.specs.Lineup as rule;
ghost use Rattle.rules.specs.Refusals.{by_number};
ghost use Rattle.rules.specs.LabelLines.{hex_digit, hexadecimal, label_line, label_heading};
ghost use Rattle.text.specs.Written.{Wrote, Counts, hex_pair, field_of, line_of, front_of, khz_front, coding_fields, count_lines};

use rules::{LiveVersion, Mode, Refusal, State, Tuned};

// ---- text and numbers

// Puts a text at a place, and answers the place behind it.
fn put(out: &mut [u8], at: usize, bytes: &[u8]) -> usize
    requires { at + length bytes.now ≤ length out.old }
    ensures { Wrote out.old at bytes.now out.new result }
{
    fields::put(out, at, bytes);
    at + bytes.len()
}

fn put_byte(out: &mut [u8], at: usize, b: u8) -> usize
    requires { at < length out.old }
    ensures { Wrote out.old at (b ∷ []) out.new result }
{
    out[at] = b;
    at + 1
}

fn digit(d: u64) -> u8
    requires { d < 10 }
    ensures { result ≡ 48 + d }
{
    48 + d as u8
}

// A number in decimal, with no zero in front. (No `Display`: the digits go to a place of a lent buffer, and the place behind them is answered.)
fn put_number(out: &mut [u8], at: usize, n: u64) -> usize
    requires { at + length (decimal n) ≤ length out.old }
    ensures { Wrote out.old at (decimal n) out.new result }
{
    if n < 10 {
        return put_byte(out, at, digit(n));
    }
    let next = put_number(out, at, n / 10);
    put_byte(out, next, digit(n % 10))
}

// The digit of a number below 16, with a capital letter from 10 on.
fn hex_digit(d: u8) -> u8
    requires { d < 16 }
    ensures { result ≡ hex_digit d }
{
    if d < 10 {
        return 48 + d;
    }
    55 + d
}

// A byte in hexadecimal.
fn put_pair(out: &mut [u8], at: usize, b: u8) -> usize
    requires { at + 2 ≤ length out.old }
    ensures { Wrote out.old at (hex_pair b) out.new result }
{
    let next = put_byte(out, at, hex_digit(b / 16));
    put_byte(out, next, hex_digit(b % 16))
}

// Bytes in hexadecimal, two digits each.
fn put_hex(out: &mut [u8], at: usize, bytes: &[u8]) -> usize
    requires { at + length bytes.now * 2 ≤ length out.old }
    ensures { (result ≤ at + length bytes.now * 2) × Wrote out.old at (hexadecimal bytes.now) out.new result }
{
    let mut next = at;
    for i in 0..bytes.len() {
        next = put_pair(out, next, bytes[i]);
    }
    next
}

// A key with its number.
fn put_field(out: &mut [u8], at: usize, key: &[u8], n: u64) -> usize
    requires { at + length key.now + 20 ≤ length out.old }
    ensures { (result ≤ at + length key.now + 20) × Wrote out.old at (field_of key.now n) out.new result }
{
    let next = put(out, at, key);
    put_number(out, next, n)
}

// A line of a key and its number.
fn put_line(out: &mut [u8], at: usize, key: &[u8], n: u64) -> usize
    requires { at + length key.now + 21 ≤ length out.old }
    ensures { (result ≤ at + length key.now + 21) × Wrote out.old at (line_of key.now (decimal n)) out.new result }
{
    let next = put_field(out, at, key, n);
    put(out, next, b"\n")
}

// ---- the lines in front of the channels

// A table's line: its live version or none.
fn put_version(out: &mut [u8], at: usize, key: &[u8], live: LiveVersion) -> usize
    requires { at + length key.now + 21 ≤ length out.old }
    ensures { (result ≤ at + length key.now + 21) × Wrote out.old at (line_of key.now (version live)) out.new result }
{
    if live.present == 1 {
        return put_line(out, at, key, live.version as u64);
    }
    let next = put(out, at, key);
    put(out, next, b"none\n")
}

fn put_versions(out: &mut [u8], at: usize, s: State) -> usize
    requires { at + 125 ≤ length out.old }
    ensures { (result ≤ at + 125) × Wrote out.old at (version_lines s) out.new result }
{
    let cds = put_version(out, at, b"cds=", s.tables.cds.live);
    let mms = put_version(out, cds, b"mms=", s.tables.mms.live);
    let vcm = put_version(out, mms, b"vcm=", s.tables.vcm.live);
    let dcm = put_version(out, vcm, b"dcm=", s.tables.dcm.live);
    put_version(out, dcm, b"ntt=", s.tables.ntt.live)
}

fn put_counts(out: &mut [u8], at: usize, map: u16, sections: u64, refused: u64) -> usize
    requires { at + 93 ≤ length out.old }
    ensures { (result ≤ at + 93) × Wrote out.old at (count_lines map sections refused) out.new result }
{
    let first = put(out, at, b"lineup=1\n");
    let second = put_line(out, first, b"map=", map as u64);
    let third = put_line(out, second, b"sections=", sections);
    put_line(out, third, b"refused=", refused)
}

// The lines from lineup= to channels=, at the front of the buffer. Answers their length.
pub fn heading(out: &mut [u8; 256], s: State, sections: u64, refused: u64, channels: u64) -> usize
    ensures wrote { Wrote out.old 0 (rule.heading s sections refused channels) out.new result }
    ensures counts { Counts result out.new }
{
    let counts = put_counts(out, 0, s.settings.map, sections, refused);
    let versions = put_versions(out, counts, s);
    put_line(out, versions, b"channels=", channels)
}

// All that is printed of fewer than two bytes.
pub fn refused(out: &mut [u8; 256]) -> usize
    ensures wrote { Wrote out.old 0 (text "lineup=refused\n") out.new result }
    ensures counts { Counts result out.new }
{
    put(out, 0, b"lineup=refused\n")
}

// The lines of the labels from labels= to channels=, in the same way.
pub fn label_heading(out: &mut [u8; 256], s: State, channels: u64) -> usize
    ensures wrote { Wrote out.old 0 (label_heading s channels) out.new result }
    ensures counts { Counts result out.new }
{
    let first = put(out, 0, b"labels=1\n");
    let second = put_line(out, first, b"map=", s.settings.map as u64);
    let third = put_version(out, second, b"ntt=", s.tables.ntt.live);
    put_line(out, third, b"channels=", channels)
}

pub fn labels_refused(out: &mut [u8; 256]) -> usize
    ensures wrote { Wrote out.old 0 (text "labels=refused\n") out.new result }
    ensures counts { Counts result out.new }
{
    put(out, 0, b"labels=refused\n")
}

// ---- the line of a channel

// What every line has in front, but for its kind.
#[derive(Clone, Copy)]
struct Front {
    number: u16,
    hidden: u8,
    path: u8,
}

fn put_front(out: &mut [u8], at: usize, kind: &[u8], f: Front) -> usize
    requires { at + length kind.now + 82 ≤ length out.old }
    ensures { (result ≤ at + length kind.now + 82) × Wrote out.old at (front_of f.number kind.now f.hidden f.path) out.new result }
{
    let first = put_field(out, at, b"channel=", f.number as u64);
    let second = put(out, first, kind);
    let third = put_field(out, second, b" hidden=", f.hidden as u64);
    put_field(out, third, b" path=", f.path as u64)
}

// And what the lines of digital and analogue channels go on with.
fn put_place(out: &mut [u8], at: usize, kind: &[u8], f: Front, khz: u32) -> usize
    requires { at + length kind.now + 107 ≤ length out.old }
    ensures { (result ≤ at + length kind.now + 107) × Wrote out.old at (khz_front f.number kind.now f.hidden f.path khz) out.new result }
{
    let next = put_front(out, at, kind, f);
    put_field(out, next, b" khz=", khz as u64)
}

fn put_coding(out: &mut [u8], at: usize, system: u8, inner: u8, split: u8) -> usize
    requires { at + 82 ≤ length out.old }
    ensures { (result ≤ at + 82) × Wrote out.old at (coding_fields system inner split) out.new result }
{
    let first = put_field(out, at, b" system=", system as u64);
    let second = put_field(out, first, b" inner=", inner as u64);
    put_field(out, second, b" split=", split as u64)
}

fn put_mode(out: &mut [u8], at: usize, m: Mode) -> usize
    requires { at + 139 ≤ length out.old }
    ensures { (result ≤ at + 139) × Wrote out.old at (mode_fields m) out.new result }
{
    let first = put_coding(out, at, m.system, m.inner, m.split);
    let second = put_field(out, first, b" format=", m.format as u64);
    put_field(out, second, b" symbols=", m.symbols as u64)
}

fn put_digital(out: &mut [u8], at: usize, f: Front, khz: u32, program: u16, mode: Mode) -> usize
    requires { at + 289 ≤ length out.old }
    ensures { (result ≤ at + 289) × Wrote out.old at (khz_front f.number (text " kind=digital") f.hidden f.path khz ++ field_of (text " program=") program ++ mode_fields mode ++ text "\n") out.new result }
{
    let first = put_place(out, at, b" kind=digital", f, khz);
    let second = put_field(out, first, b" program=", program as u64);
    let third = put_mode(out, second, mode);
    put(out, third, b"\n")
}

fn put_analogue(out: &mut [u8], at: usize, f: Front, khz: u32, standard: u8, scrambled: u8) -> usize
    requires { at + 289 ≤ length out.old }
    ensures { (result ≤ at + 289) × Wrote out.old at (khz_front f.number (text " kind=analogue") f.hidden f.path khz ++ field_of (text " standard=") standard ++ field_of (text " scrambled=") scrambled ++ text "\n") out.new result }
{
    let first = put_place(out, at, b" kind=analogue", f, khz);
    let second = put_field(out, first, b" standard=", standard as u64);
    let third = put_field(out, second, b" scrambled=", scrambled as u64);
    put(out, third, b"\n")
}

fn put_application(out: &mut [u8], at: usize, f: Front, application: u16) -> usize
    requires { at + 289 ≤ length out.old }
    ensures { (result ≤ at + 289) × Wrote out.old at (front_of f.number (text " kind=application") f.hidden f.path ++ field_of (text " application=") application ++ text "\n") out.new result }
{
    let first = put_front(out, at, b" kind=application", f);
    let second = put_field(out, first, b" application=", application as u64);
    put(out, second, b"\n")
}

// The line of a channel that tunes or is an application, and nothing for a channel that is refused. Answers the place behind
// it.
pub fn channel_line(out: &mut [u8], at: usize, number: u16, tuned: Result<Tuned, Refusal>) -> usize
    requires { at + 289 ≤ length out.old }
    ensures { (result ≤ at + 289) × Wrote out.old at (flatten (channel_line number (by_number tuned))) out.new result }
{
    let Ok(tuned) = tuned else {
        return at;
    };
    match tuned {
        Tuned::Digital {
            hidden,
            path,
            khz,
            program,
            mode,
        } => put_digital(
            out,
            at,
            Front {
                number,
                hidden,
                path,
            },
            khz,
            program,
            mode,
        ),
        Tuned::Analogue {
            hidden,
            path,
            khz,
            standard,
            scrambled,
        } => put_analogue(
            out,
            at,
            Front {
                number,
                hidden,
                path,
            },
            khz,
            standard,
            scrambled,
        ),
        Tuned::Application {
            hidden,
            path,
            number: application,
        } => put_application(
            out,
            at,
            Front {
                number,
                hidden,
                path,
            },
            application,
        ),
    }
}

// The line of a channel's label.
pub fn label_line(out: &mut [u8], at: usize, number: u16, label: &[u8]) -> usize
    requires { (at + 546 ≤ length out.old) × (length label.now ≤ 255) }
    ensures { (result ≤ at + 546) × Wrote out.old at (label_line number label.now) out.new result }
{
    let first = put_field(out, at, b"channel=", number as u64);
    let second = put(out, first, b" label=");
    let third = put_hex(out, second, label);
    put(out, third, b"\n")
}

// How many lines a channel has: 1, or 0 where it is refused.
#[tactic(auto, unfolding(rules::specs::Lineup::channel_line))]
pub fn lines_of(number: u16, tuned: Result<Tuned, Refusal>) -> u64
    ensures { result ≡ length (channel_line number (by_number tuned)) }
{
    match tuned {
        Ok(_) => 1,
        Err(_) => 0,
    }
}
