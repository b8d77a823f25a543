// For the tests alone, and no part of the box: the receiver and the tuner behind bytes and numbers, so that C can offer a
// section to any state with any store, or ask any channel of them, and see what comes of it. One call gives one part, so a
// caller of trial_offer lends a copy of the store for each.
#![tactic(auto)]

ghost use Rattle.std.specs.Prelude.{◌≡◌, length};
ghost use Rattle.rules.specs.Holding.{fresh, offered, outcome, store_after};
ghost use Rattle.rules.specs.Refusals.{by_number};
ghost use Rattle.rules.specs.Tuning.{tune};
ghost use Rattle.rules.specs.Label.{labelled, label_bytes};
ghost use Rattle.tuner.specs.Checks.{checks};
ghost use Rattle.trials.specs.Coded.{holding_from, language_from, state_from, holding_number, language_number};
ghost use Rattle.trials.specs.Coded.{state_part, answer_number, offered_part, head_number, digital_number};
ghost use Rattle.trials.specs.Coded.{tuned_head, tuned_rest, tuned_symbols, tuned_part, label_kind, label_start, label_size, label_part, shown_in};

use rules::{
    Answer, GatheredVersion, Holding, Labelled, LiveVersion, Mode, Offered, Refusal, Settings,
    State, Tables, Tuned,
};

#[tactic(auto, unfolding(crate::specs::Coded::holding_from))]
fn holding_from(b: &[u8], at: u8) -> Holding
    ensures { result ≡ holding_from b.now at }
{
    let first = at as usize;
    Holding {
        live: LiveVersion {
            present: fields::byte(b, first),
            version: fields::byte(b, first + 1),
            last: fields::byte(b, first + 2),
        },
        gathered: GatheredVersion {
            present: fields::byte(b, first + 3),
            version: fields::byte(b, first + 4),
            last: fields::byte(b, first + 5),
            held: fields::byte(b, first + 6),
        },
        half: fields::byte(b, first + 7),
    }
}

#[tactic(auto, unfolding(crate::specs::Coded::language_from))]
fn language_from(b: &[u8], at: u8) -> [u8; 3]
    ensures { result ≡ language_from b.now at }
{
    let first = at as usize;
    [
        fields::byte(b, first),
        fields::byte(b, first + 1),
        fields::byte(b, first + 2),
    ]
}

#[tactic(auto, unfolding(crate::specs::Coded::state_from))]
fn state_from(b: &[u8]) -> State
    ensures { result ≡ state_from b.now }
{
    State {
        tables: Tables {
            cds: holding_from(b, 2),
            mms: holding_from(b, 10),
            vcm: holding_from(b, 18),
            dcm: holding_from(b, 26),
            ntt: holding_from(b, 34),
        },
        settings: Settings {
            map: u16::from_le_bytes([fields::byte(b, 0), fields::byte(b, 1)]),
            language: language_from(b, 42),
        },
    }
}

#[tactic(auto, unfolding(crate::specs::Coded::holding_number))]
fn holding_number(h: Holding) -> u64
    ensures { result ≡ holding_number h }
{
    u64::from_le_bytes([
        h.live.present,
        h.live.version,
        h.live.last,
        h.gathered.present,
        h.gathered.version,
        h.gathered.last,
        h.gathered.held,
        h.half,
    ])
}

#[tactic(auto, unfolding(crate::specs::Coded::language_number))]
fn language_number(l: &[u8]) -> u64
    ensures { result ≡ language_number l.now }
{
    u32::from_le_bytes([
        fields::byte(l, 0),
        fields::byte(l, 1),
        fields::byte(l, 2),
        0,
    ]) as u64
}

#[tactic(auto, unfolding(crate::specs::Coded::state_part))]
fn state_part(s: State, part: u32) -> u64
    ensures { result ≡ state_part s part }
{
    match part {
        0 => s.settings.map as u64,
        1 => holding_number(s.tables.cds),
        2 => holding_number(s.tables.mms),
        3 => holding_number(s.tables.vcm),
        4 => holding_number(s.tables.dcm),
        5 => holding_number(s.tables.ntt),
        6 => language_number(&s.settings.language),
        _ => 0,
    }
}

#[tactic(auto, unfolding(crate::specs::Coded::answer_number))]
fn answer_number(a: Result<Answer, Refusal>) -> u64
    ensures { result ≡ answer_number (by_number a) }
{
    match a {
        Ok(Answer::OtherMap) => 1,
        Ok(Answer::Repeat) => 2,
        Ok(Answer::Stored(missing)) => 3 + missing as u64 * 256,
        Ok(Answer::Live(version)) => 4 + version as u64 * 256,
        Err(refusal) => refusal.number() as u64 * 256,
    }
}

// Of an offer to a state, which a refusal leaves as it was.
#[tactic(auto, unfolding(crate::specs::Coded::offered_part))]
fn offered_part(given: State, offered: Result<Offered, Refusal>, part: u32) -> u64
    ensures { result ≡ offered_part (outcome given offered) part }
{
    let (answer, state) = match offered {
        Ok(o) => (Ok(o.answer), o.state),
        Err(refusal) => (Err(refusal), given),
    };
    if part == 7 {
        return answer_number(answer);
    }
    state_part(state, part)
}

// A part of the state at the start: the map number, a table's holding, or the language.
#[unsafe(no_mangle)]
pub extern "C" fn trial_start(map: u16, language: &[u8], part: u32) -> u64
    ensures { result ≡ state_part (fresh map (language_from language.now 0)) part }
{
    let state = receiver::start(map, language_from(language, 0));
    state_part(state, part)
}

// Offers a section to a state of 45 bytes, and gives a part of what comes of it: of the state after, or the answer.
#[unsafe(no_mangle)]
pub extern "C" fn trial_offer(state: &[u8], store: &mut [u8], section: &[u8], part: u32) -> u64
    ensures value { result ≡ offered_part (offered (state_from state.now) store.old section.now) part }
    ensures store_after { store.new ≡ store_after (state_from state.now) store.old section.now }
{
    let given = state_from(state);
    let offered = receiver::offer(given, store, section);
    offered_part(given, offered, part)
}

// ---- tuning

#[tactic(auto, unfolding(crate::specs::Coded::head_number))]
fn head_number(kind: u8, hidden: u8, path: u8, khz: u32) -> u64
    ensures { result ≡ head_number kind hidden path khz }
{
    kind as u64 + hidden as u64 * 0x100 + path as u64 * 0x10000 + khz as u64 * 0x100000000
}

#[tactic(auto, unfolding(crate::specs::Coded::tuned_head))]
fn tuned_head(t: Result<Tuned, Refusal>) -> u64
    ensures { result ≡ tuned_head (by_number t) }
{
    match t {
        Ok(
            Tuned::Digital {
                hidden,
                path,
                khz,
                ..
            },
        ) => head_number(1, hidden, path, khz),
        Ok(
            Tuned::Analogue {
                hidden,
                path,
                khz,
                ..
            },
        ) => head_number(2, hidden, path, khz),
        Ok(Tuned::Application { hidden, path, .. }) => head_number(3, hidden, path, 0),
        Err(refusal) => head_number(0, refusal.number(), 0, 0),
    }
}

#[tactic(auto, unfolding(crate::specs::Coded::digital_number))]
fn digital_number(program: u16, m: Mode) -> u64
    ensures { result ≡ digital_number program m }
{
    program as u64
        + m.system as u64 * 0x10000
        + m.inner as u64 * 0x1000000
        + m.split as u64 * 0x100000000
        + m.format as u64 * 0x10000000000
}

#[tactic(auto, unfolding(crate::specs::Coded::tuned_rest))]
fn tuned_rest(t: Result<Tuned, Refusal>) -> u64
    ensures { result ≡ tuned_rest (by_number t) }
{
    match t {
        Ok(Tuned::Digital { program, mode, .. }) => digital_number(program, mode),
        Ok(
            Tuned::Analogue {
                standard,
                scrambled,
                ..
            },
        ) => standard as u64 + scrambled as u64 * 0x100,
        Ok(Tuned::Application { number, .. }) => number as u64,
        Err(_) => 0,
    }
}

#[tactic(auto, unfolding(crate::specs::Coded::tuned_symbols))]
fn tuned_symbols(t: Result<Tuned, Refusal>) -> u64
    ensures { result ≡ tuned_symbols (by_number t) }
{
    match t {
        Ok(Tuned::Digital { mode, .. }) => mode.symbols as u64,
        Ok(Tuned::Analogue { .. } | Tuned::Application { .. }) | Err(_) => 0,
    }
}

#[tactic(auto, unfolding(crate::specs::Coded::tuned_part))]
fn tuned_part(t: Result<Tuned, Refusal>, part: u32) -> u64
    ensures { result ≡ tuned_part (by_number t) part }
{
    match part {
        0 => tuned_head(t),
        1 => tuned_rest(t),
        2 => tuned_symbols(t),
        _ => 0,
    }
}

// The refusal that goes for every channel, of a state of 45 bytes with a store, or 0.
#[unsafe(no_mangle)]
pub extern "C" fn trial_check(state: &[u8], store: &[u8]) -> u8
    ensures { result ≡ checks (state_from state.now) store.now }
{
    let given = state_from(state);
    match tuner::check(given, store) {
        Ok(()) => 0,
        Err(refusal) => refusal.number(),
    }
}

// Asks a channel of a state of 45 bytes with a store, and gives a part of the answer.
#[unsafe(no_mangle)]
pub extern "C" fn trial_tune(state: &[u8], store: &[u8], channel: u16, part: u32) -> u64
    ensures { result ≡ tuned_part (tune (state_from state.now) store.now channel) part }
{
    let given = state_from(state);
    let tuned = tuner::tune(given, store, channel);
    tuned_part(tuned, part)
}

// ---- labels

#[tactic(auto, unfolding(crate::specs::Coded::label_kind))]
fn label_kind(l: Result<Labelled, Refusal>) -> u64
    ensures { result ≡ label_kind (by_number l) }
{
    match l {
        Ok(Labelled::Named { .. }) => 1,
        Ok(Labelled::Fallback) => 2,
        Err(refusal) => refusal.number() as u64 * 256,
    }
}

#[tactic(auto, unfolding(crate::specs::Coded::label_start))]
fn label_start(l: Result<Labelled, Refusal>) -> u64
    ensures { result ≡ label_start (by_number l) }
{
    match l {
        Ok(Labelled::Named { start, .. }) => start as u64,
        Ok(Labelled::Fallback) | Err(_) => 0,
    }
}

#[tactic(auto, unfolding(crate::specs::Coded::label_size))]
fn label_size(l: Result<Labelled, Refusal>) -> u64
    ensures { result ≡ label_size (by_number l) }
{
    match l {
        Ok(Labelled::Named { size, .. }) => size as u64,
        Ok(Labelled::Fallback) | Err(_) => 0,
    }
}

#[tactic(auto, unfolding(crate::specs::Coded::label_part))]
fn label_part(l: Result<Labelled, Refusal>, part: u32) -> u64
    ensures { result ≡ label_part (by_number l) part }
{
    match part {
        0 => label_kind(l),
        1 => label_start(l),
        2 => label_size(l),
        _ => 0,
    }
}

// Asks the label of a channel of a state of 45 bytes with a store, and gives a part of the answer.
#[unsafe(no_mangle)]
pub extern "C" fn trial_label(state: &[u8], store: &[u8], channel: u16, part: u32) -> u64
    ensures { result ≡ label_part (labelled (state_from state.now) store.now channel) part }
{
    let given = state_from(state);
    let labelled = label::ask_label(given, store, channel);
    label_part(labelled, part)
}

// The length of the label itself, and its bytes at the front of `out`, where there is room for them.
#[tactic(auto, unfolding(crate::specs::Coded::shown_in))]
#[unsafe(no_mangle)]
pub extern "C" fn trial_shown<'a>(
    state: &[u8],
    store: &'a [u8],
    fallback: &'a [u8],
    channel: u16,
    out: &mut [u8],
) -> u64
    ensures value { result ≡ length (label_bytes store.now fallback.now (labelled (state_from state.now) store.now channel)) }
    ensures out_after { out.new ≡ shown_in (label_bytes store.now fallback.now (labelled (state_from state.now) store.now channel)) out.old }
{
    let given = state_from(state);
    let label = label::label(given, store, fallback, channel);
    let size = label.len() as u64;
    if label.len() <= out.len() {
        fields::put(out, 0, label);
    }
    size
}
