// Holding and going live: the state of a box by value, the store that is lent with it, and what an offered section does to
// both. Refusals 1 and 2, the reader's 3 to 11, 12 and 13; other map, repeat, stored and live.
#![tactic(auto)]

ghost use Rattle.std.specs.Prelude.{◌≡◌};
ghost use Rattle.rules.specs.Holding.{fresh, takes_in, offered, outcome, store_after};
ghost use Rattle.rules.specs.Refusals.{right};
ghost use Rattle.rules.specs.Said.{answer_said, offer_said};
ghost use Rattle.receiver.specs.Taking.{answered, stored, Room};

use rules::{
    Answer, GatheredVersion, Holding, LiveVersion, Offered, Refusal, SectionHead, Settings, State,
    Tables,
};

// ---- the state

// Bytes of the store of a fresh box: an array's length can't be asked of `state::store_size`. That it is as long as the rule says is a law
// (`fresh-store`), which `lineup` and `runs` cite; where it is not used, as in `trace`, check 1 looks at every store.
pub const STORE: usize = 40960;

// A box for a map and a language: nothing live, nothing gathered, and the half set to 1, so that gathering uses half 0.
#[tactic(auto, using(crate::proofs::Laws::held_fresh), unfolding(rules::specs::Holding::fresh))]
pub fn start(map: u16, language: [u8; 3]) -> State
    ensures { result ≡ fresh map language }
{
    let none = Holding {
        live: LiveVersion::default(),
        gathered: GatheredVersion::default(),
        half: 1,
    };
    State {
        tables: Tables {
            cds: none,
            mms: none,
            vcm: none,
            dcm: none,
            ntt: none,
        },
        settings: Settings { map, language },
    }
}

// ---- an offer

// The answers of steps 5 and 6.
fn takes_in(a: Answer) -> bool
    ensures { result ≡ takes_in (right a) }
{
    matches!(a, Answer::Stored(_) | Answer::Live(_))
}

// The answer to a section that reads right, and the state after it; or 11, 12, 13.
#[tactic(auto, using(rules::proofs::States::with_own), unfolding(crate::specs::Taking::answered, rules::specs::Gathering::stepped))]
fn answer_to(s: State, head: SectionHead) -> Result<Offered, Refusal>
    ensures { outcome s result ≡ answered s head }
{
    // step 1
    if state::is_for_other(s, head.table, head.map, head.language) {
        return Ok(Offered {
            answer: Answer::OtherMap,
            state: s,
        });
    }
    let h = state::holding_of(s, head.table);
    let stepped = holding::step(state::limit_of(s), h, head.revision)?;
    Ok(Offered {
        answer: stepped.answer,
        state: state::with_holding(s, head.table, stepped.holding),
    })
}

// The same, with the section put into the store where steps 5 and 6 say so.
fn hold(
    state: State,
    store: &mut [u8],
    section: &[u8],
    head: SectionHead,
) -> Result<Offered, Refusal>
    requires { Room state store.old section.now head }
    ensures value { outcome state result ≡ answered state head }
    ensures store_after { store.new ≡ stored state store.old section.now head }
{
    let offered = answer_to(state, head)?;
    if takes_in(offered.answer) {
        let at = state::gathered_at(state, head.table, head.revision.number);
        fields::put(store, at, section);
    }
    Ok(offered)
}

// What the box answers to a section, and its state then. Steps 5 and 6 put the section's bytes at the front of its place; in
// every other case the store is as it was, and where it refuses the state is the one that was given.
#[tactic(auto, using(crate::proofs::Laws::offers), unfolding(rules::specs::Gathering::store_after, rules::specs::Said::offer_said))]
pub fn offer(state: State, store: &mut [u8], section: &[u8]) -> Result<Offered, Refusal>
    ensures value { outcome state result ≡ offered state store.old section.now }
    ensures store_after { store.new ≡ store_after state store.old section.now }
    ensures answer_value { answer_said (outcome state result).answer ≡ offer_said state store.old section.now }
{
    if store.len() < state::store_size(state) {
        return Err(Refusal::ShortStore);
    }
    if !state::well_formed(state) {
        return Err(Refusal::BadState);
    }
    let head = section::read_section(section)?;
    hold(state, store, section, head)
}
