// What a fresh box answers to each section of a capture, a line each. Standard input: two bytes of map number, then sections
// back to back, each taking 3 + L bytes; an unfinished last one is offered as it is.
#![tactic(auto)]

ghost use Rattle.std.specs.Prelude.{◌≡◌, ◌+◌, ◌≤◌, length, take};

use rules::{Answer, Refusal, State};
use std::io::Read;

// The longest section that a length of 12 bits can announce.
const LONGEST: usize = 4098;

// What can't be written is left: the next line is tried all the same. (A line with no number is written as it stands: `println!` would lay it out anew,
// byte by byte, at each section.)
fn write_answer(rt: &impl Print, answer: Result<Answer, Refusal>) {
    let _ = match answer {
        Err(refusal) => println!(rt; "answer=refused number={}", refusal.number()),
        Ok(Answer::OtherMap) => rt.write_all(b"answer=other-map\n"),
        Ok(Answer::Repeat) => rt.write_all(b"answer=repeat\n"),
        Ok(Answer::Stored(missing)) => println!(rt; "answer=stored missing={missing}"),
        Ok(Answer::Live(version)) => println!(rt; "answer=live version={version}"),
    };
}

// Reads until the buffer is full, the input ends or a read fails: how many bytes there are at its front. (No `read_exact`: the last
// section may be cut short, and is offered so.)
fn read_full<R: Read>(reader: &mut R, buffer: &mut [u8]) -> usize
    ensures in_bounds { result ≤ length buffer.new }
    ensures front { result ≡ length (take result buffer.new) }
{
    let mut done = 0;
    while done < buffer.len() {
        let got = reader.read(&mut buffer[done..]).unwrap_or(0);
        if got == 0 {
            break;
        }
        done += got;
    }
    done
}

// Reads n bytes to a place of the buffer, or as many as there are.
fn read_at<R: Read>(reader: &mut R, buffer: &mut [u8], at: usize, n: usize) -> usize
    requires { at + n ≤ length buffer.old }
    ensures { result ≤ n }
{
    read_full(reader, &mut buffer[at..at + n])
}

// The next section of the input, at the front of the buffer: how many bytes there are of it, 0 at the end.
fn next_section<R: Read>(reader: &mut R, buffer: &mut [u8]) -> usize
    requires { 4098 ≤ length buffer.old }
    ensures { result ≤ length buffer.old }
{
    let got = read_at(reader, buffer, 0, 3);
    if got < 3 {
        return got;
    }
    let rest = fields::length_of(buffer) as usize;
    3 + read_at(reader, buffer, 3, rest)
}

// What an offer of a section leaves; its answer is written.
fn offer_one(rt: &impl Print, state: State, store: &mut [u8], section: &[u8]) -> State {
    let offered = receiver::offer(state, store, section);
    write_answer(rt, offered.map(|o| o.answer));
    offered.map_or(state, |o| o.state)
}

// Offers section after section. A proved loop has to end, and nothing says that an input does: no run uses the turns up.
fn follow<R: Read>(
    rt: &impl Print,
    reader: &mut R,
    start: State,
    store: &mut [u8],
    buffer: &mut [u8],
)
    requires { 4098 ≤ length buffer.old }
{
    let mut state = start;
    for turn in 0..u64::MAX {
        let size = next_section(reader, buffer);
        if size == 0 {
            return;
        }
        state = offer_one(rt, state, store, &buffer[..size]);
    }
}

fn main(rt: HostRuntime) {
    let mut map = [0u8; 2];
    let mut input = rt.stdin();
    if read_full(&mut input, &mut map) < 2 {
        let _ = println!(rt; "trace=refused");
        return;
    }
    let mut store = [0u8; receiver::STORE];
    let mut buffer = [0u8; LONGEST];
    follow(
        &rt,
        &mut input,
        receiver::start(stream::map_of(&map), *b"eng"),
        &mut store,
        &mut buffer,
    );
}
