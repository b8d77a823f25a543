// The label of a channel: its name, a part of the lent store, or the fallback that the hotel lends. The checks that go for every
// channel (1, 2, 15 and 16) are made by `check`; where they passed `look_up` looks names up without making them again; `ask_label` is
// check and look-up, and `label` shows what it answers.
#![tactic(auto)]

ghost use Rattle.std.specs.Prelude.{◌≡◌, ◌≤◌, length, IfOk};
ghost use Rattle.rules.specs.Refusals.{by_number};
ghost use Rattle.rules.specs.Search.{first};
ghost use Rattle.rules.specs.Label.{is_name, live_names, label_of, names_read, labelled, label_bytes};
ghost use Rattle.rules.specs.Said.{label_said, ask_label_said};
ghost use Rattle.search.specs.Found.{Brief};
ghost use Rattle.tuner.specs.Checks.{checked_as};
ghost use Rattle.label.specs.Labels.{label_checks, label_place};

use rules::{Labelled, Refusal, State, Table};
use tuner::Lookup;

// ---- the checks: 1, 2, 15 and 16

// Whether the places of the names still read right, if names are live at all.
#[tactic(auto, unfolding(rules::specs::Label::names_read, rules::specs::Tuning::table_live))]
fn names_read(s: State, store: &[u8]) -> bool
    ensures { result ≡ names_read s store.now }
{
    s.tables.ntt.live.present != 1 || state::table_reads(s, store, Table::Ntt)
}

// The refusal that goes for every channel, 1, 2, 15 or 16, or none: labels can be looked up. They are the checks of tuning, and 16 for
// live names too.
#[tactic(auto, using(crate::proofs::Laws::check_refused, crate::proofs::Laws::check_unread, crate::proofs::Laws::check_passed))]
pub fn check(state: State, store: &[u8]) -> Result<(), Refusal>
    ensures { by_number result ≡ checked_as (label_checks state store.now) }
{
    tuner::check(state, store)?;
    if !names_read(state, store) {
        return Err(Refusal::Unreadable);
    }
    Ok(())
}

// ---- a channel

// The first name of an application, or of a source, by its number; where there is none, or names aren't live, the fallback.
#[tactic(auto, using(crate::proofs::Laws::name_first))]
fn first_name(s: State, store: &[u8], application: u8, number: u16) -> Labelled
    requires { label_checks s store.now ≡ 0 }
    ensures value { result ≡ label_of (first (λ e. is_name application number e.row) (live_names s store.now)) }
    ensures brief { Brief result }
{
    if s.tables.ntt.live.present != 1 {
        return Labelled::Fallback;
    }
    search::label_at(store, search::name_entry(s, store, application, number))
}

// The label of a channel where the checks have passed: 14, 17 and 18, and then its name. (No method of `Lookup`: its checks are fewer, and say
// nothing of the places of names.)
#[tactic(auto, using(crate::proofs::Laws::tunable, crate::proofs::Laws::too_high, crate::proofs::Laws::undefined, crate::proofs::Laws::unrecorded))]
pub fn look_up(state: State, store: &[u8], channel: u16) -> Result<Labelled, Refusal>
    requires { label_checks state store.now ≡ 0 }
    ensures value { by_number result ≡ labelled state store.now channel }
    ensures brief { IfOk result Brief }
{
    if 4095 < channel {
        return Err(Refusal::NoChannelNumber);
    }
    let lookup = Lookup::unlisted(state, store);
    if !lookup.is_defined(channel) {
        return Err(Refusal::NotDefined);
    }
    match lookup.find_channel(channel) {
        Some(c) => Ok(first_name(state, store, c.application, c.source)),
        None => Err(Refusal::NoRecord),
    }
}

// The label question: refused by a number, named by a part of the store, or the fallback. 14 comes behind 1 and 2 and before 15 and 16.
#[tactic(auto, using(crate::proofs::Laws::refused_high, crate::proofs::Laws::refused_as), unfolding(rules::specs::Said::ask_label_said))]
pub fn ask_label(state: State, store: &[u8], channel: u16) -> Result<Labelled, Refusal>
    ensures value { by_number result ≡ labelled state store.now channel }
    ensures brief { IfOk result Brief }
    ensures result_value { label_said (by_number result) ≡ ask_label_said state store.now channel }
{
    match check(state, store) {
        Ok(()) => look_up(state, store, channel),
        Err(refusal) => {
            if matches!(refusal, Refusal::NotLive | Refusal::Unreadable) && 4095 < channel {
                return Err(Refusal::NoChannelNumber);
            }
            Err(refusal)
        }
    }
}

// ---- the label itself

// What an answer shows: the part of the store that it names, or the fallback; of a refusal the empty front of the fallback.
#[tactic(auto, unfolding(rules::specs::Label::label_bytes, crate::specs::Labels::label_place, rules::specs::Bytes::from))]
fn shown<'a>(store: &'a [u8], fallback: &'a [u8], labelled: Result<Labelled, Refusal>) -> &'a [u8]
    ensures result_value { result.now ≡ label_bytes store.now fallback.now (by_number labelled) }
    ensures ref_ptr_value { result.ref_ptr ≡ label_place store.now store.entry.ref_ptr fallback.entry.ref_ptr (by_number labelled) }
{
    match labelled {
        Ok(Labelled::Named { start, size }) => fields::part(store, start, size),
        Ok(Labelled::Fallback) => fallback,
        Err(_) => &fallback[..0],
    }
}

// The label of a channel, a part of the store or of the fallback and no copy. Where the question is refused it is empty, and
// `ask_label` tells that from an empty fallback.
#[tactic(auto, using(crate::proofs::Laws::brief_bytes))]
pub fn label<'a>(state: State, store: &'a [u8], fallback: &'a [u8], channel: u16) -> &'a [u8]
    ensures result_value { result.now ≡ label_bytes store.now fallback.now (labelled state store.now channel) }
    ensures ref_ptr_value { result.ref_ptr
        ≡ label_place store.now store.entry.ref_ptr fallback.entry.ref_ptr (labelled state store.now channel) }
    ensures result_len_bound { length fallback.now ≤ 255 → length result.now ≤ 255 }
{
    shown(store, fallback, ask_label(state, store, channel))
}
