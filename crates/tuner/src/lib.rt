// From number to tuner: what a channel number is tuned to, or the refusal. The checks that go for every channel (1, 2, 15 and 16) are
// made by `check`; where they passed a `Lookup` looks channels up without making them again; `tune` is check and look-up.
#![tactic(auto)]

ghost use Rattle.std.specs.Prelude.{◌≡◌, []};
ghost use Rattle.rules.specs.Refusals.{by_number};
ghost use Rattle.rules.specs.Search.{first};
ghost use Rattle.rules.specs.Tuning.{all_live, all_read, plant, is_carrier, is_mode, is_channel, defined};
ghost use Rattle.rules.specs.Tuning.{in_reach, tune_signal, tune_khz, tune_carrier, tune_channel};
ghost use Rattle.rules.specs.Tuning as rule;
ghost use Rattle.rules.specs.Said.{tuned_said, tune_said};
ghost use Rattle.rules.specs.declared.Signal.TheVariants as signal;
ghost use Rattle.search.specs.Found.{carrier_found, mode_found, channel_found};
ghost use Rattle.tuner.specs.Checks.{checks, checked_as, AllListed, application_of};

use rules::{Channel, Mode, Refusal, Signal, State, Table, Tuned};

// ---- the checks: 1, 2, 15 and 16

#[tactic(auto, unfolding(rules::specs::Tuning::all_live, rules::specs::Tuning::table_live))]
fn all_live(s: State) -> bool
    ensures { result ≡ all_live s }
{
    s.tables.cds.live.present == 1
        && s.tables.mms.live.present == 1
        && s.tables.vcm.live.present == 1
        && s.tables.dcm.live.present == 1
}

#[tactic(auto, unfolding(rules::specs::Tuning::all_read))]
fn all_read(s: State, store: &[u8]) -> bool
    ensures { result ≡ all_read s store.now }
{
    state::table_reads(s, store, Table::Cds)
        && state::table_reads(s, store, Table::Mms)
        && state::table_reads(s, store, Table::Vcm)
        && state::table_reads(s, store, Table::Dcm)
}

// The refusal that goes for every channel, 1, 2, 15 or 16, or none: channels can be looked up.
#[tactic(auto, unfolding(crate::specs::Checks::checks))]
pub fn check(state: State, store: &[u8]) -> Result<(), Refusal>
    ensures { by_number result ≡ checked_as (checks state store.now) }
{
    if store.len() < state::store_size(state) {
        return Err(Refusal::ShortStore);
    }
    if !state::well_formed(state) {
        return Err(Refusal::BadState);
    }
    if !all_live(state) {
        return Err(Refusal::NotLive);
    }
    if !all_read(state, store) {
        return Err(Refusal::Unreadable);
    }
    Ok(())
}

// ---- what the tuner is given

// What the tuner reaches: 54,000 to 1,002,000 kHz.
#[tactic(auto, unfolding(rules::specs::Tuning::in_reach))]
fn in_reach(khz: u32) -> bool
    ensures { result ≡ in_reach khz }
{
    54000 <= khz && khz <= 1002000
}

// Type 1 is hidden.
#[tactic(auto, unfolding(rules::specs::Tuning::hidden))]
fn hidden(c: Channel) -> u8
    ensures { result ≡ rule.hidden c }
{
    (c.kind == 1) as u8
}

// An application channel needs no carrier.
#[tactic(auto, unfolding(crate::specs::Checks::application_of))]
fn application(c: Channel) -> Tuned
    ensures { result ≡ application_of c }
{
    Tuned::Application {
        hidden: hidden(c),
        path: c.path,
        number: c.source,
    }
}

// ---- a box whose checks have passed

// Who has one has made the checks: its state and store, and listings of the four tables as far as they go. What is behind their end is
// searched for. Who asks every channel lends listings; who asks one lends none.
#[derive(Clone, Copy)]
pub struct Lookup<'a> {
    pub state: State,
    pub store: &'a [u8],
    pub ranges: &'a [u64],
    pub channels: &'a [u64],
    pub carriers: &'a [u64],
    pub modes: &'a [u64],
    pub ghost checked: { checks state store.now ≡ 0 },
    pub ghost listed: { AllListed state store.now ranges.now channels.now carriers.now modes.now },
}

impl<'a> Lookup<'a> {
    // With nothing listed.
    pub fn unlisted(state: State, store: &'a [u8]) -> Self
        requires { checks state store.now ≡ 0 }
        ensures of_state { result.state ≡ state }
        ensures of_store { result.store.now ≡ store.now }
        ensures no_ranges { result.ranges.now ≡ [] }
        ensures no_channels { result.channels.now ≡ [] }
        ensures no_carriers { result.carriers.now ≡ [] }
        ensures no_modes { result.modes.now ≡ [] }
    {
        Lookup {
            state,
            store,
            ranges: &[],
            channels: &[],
            carriers: &[],
            modes: &[],
        }
    }

    // ---- what is found under a number (put into those who ask: a line-up asks for each of 4,096 channels)

    #[inline(always)]
    #[tactic(auto, using(crate::proofs::Laws::range_by))]
    pub fn is_defined(&self, number: u16) -> bool
        ensures { result ≡ defined (plant self.now.state self.now.store.now).ranges number }
    {
        let entry = match self.ranges.get(number as usize) {
            Some(&entry) => entry,
            None => search::range_entry(self.state, self.store, number),
        };
        search::defined_at(self.store, entry)
    }

    #[inline(always)]
    #[tactic(auto, using(crate::proofs::Laws::channel_by))]
    pub fn find_channel(&self, number: u16) -> Option<Channel>
        ensures { result ≡ channel_found (first (is_channel number) (plant self.now.state self.now.store.now).channels) }
    {
        let entry = match self.channels.get(number as usize) {
            Some(&entry) => entry,
            None => search::channel_entry(self.state, self.store, number),
        };
        search::channel_at(self.store, entry)
    }

    #[tactic(auto, using(crate::proofs::Laws::carrier_by))]
    fn find_carrier(&self, index: u8) -> Option<u32>
        ensures { result ≡ carrier_found index (first (is_carrier index) (plant self.now.state self.now.store.now).carriers) }
    {
        let entry = match self.carriers.get(index as usize) {
            Some(&entry) => entry,
            None => search::carrier_entry(self.state, self.store, index as u16),
        };
        search::carrier_at(self.store, entry, index)
    }

    #[tactic(auto, using(crate::proofs::Laws::mode_by))]
    fn find_mode(&self, index: u8) -> Option<Mode>
        ensures { result ≡ mode_found (first (is_mode index) (plant self.now.state self.now.store.now).modes) }
    {
        let entry = match self.modes.get(index as usize) {
            Some(&entry) => entry,
            None => search::mode_entry(self.state, self.store, index as u16),
        };
        search::mode_at(self.store, entry)
    }

    // ---- a channel record: 19, 20 and 21

    // Reference 0 is not looked for.
    #[tactic(auto, unfolding(rules::specs::Tuning::tune_signal, rules::specs::Tuning::needs))]
    fn tune_digital(
        &self,
        c: Channel,
        khz: u32,
        program: u16,
        reference: u8,
    ) -> Result<Tuned, Refusal>
        ensures { by_number result ≡ tune_signal (plant self.now.state self.now.store.now) c khz (signal.Digital program reference) }
    {
        if reference == 0 {
            return Err(Refusal::NoMode);
        }
        match self.find_mode(reference) {
            Some(mode) => Ok(Tuned::Digital {
                hidden: hidden(c),
                path: c.path,
                khz,
                program,
                mode,
            }),
            None => Err(Refusal::NoMode),
        }
    }

    // On a frequency: nothing out of reach is handed to the tuner.
    #[tactic(auto, unfolding(rules::specs::Tuning::tune_khz, rules::specs::Tuning::tune_signal, rules::specs::Tuning::needs))]
    fn tune_khz(&self, c: Channel, khz: u32) -> Result<Tuned, Refusal>
        ensures { by_number result ≡ tune_khz (plant self.now.state self.now.store.now) c khz }
    {
        if !in_reach(khz) {
            return Err(Refusal::OutOfReach);
        }
        match c.signal {
            Signal::Digital { program, mode } => self.tune_digital(c, khz, program, mode),
            Signal::Analogue {
                scrambled,
                standard,
            } => Ok(Tuned::Analogue {
                hidden: hidden(c),
                path: c.path,
                khz,
                standard,
                scrambled,
            }),
        }
    }

    // On its carrier; reference 0 is not looked for.
    #[tactic(auto, unfolding(rules::specs::Tuning::tune_carrier, rules::specs::Tuning::needs))]
    fn tune_carrier(&self, c: Channel) -> Result<Tuned, Refusal>
        ensures { by_number result ≡ tune_carrier (plant self.now.state self.now.store.now) c }
    {
        if c.carrier == 0 {
            return Err(Refusal::NoCarrier);
        }
        match self.find_carrier(c.carrier) {
            Some(khz) => self.tune_khz(c, khz),
            None => Err(Refusal::NoCarrier),
        }
    }

    #[tactic(auto, unfolding(rules::specs::Tuning::tune_channel, crate::specs::Checks::application_of))]
    fn tune_channel(&self, c: Channel) -> Result<Tuned, Refusal>
        ensures { by_number result ≡ tune_channel (plant self.now.state self.now.store.now) c }
    {
        if c.application == 1 {
            return Ok(application(c));
        }
        self.tune_carrier(c)
    }

    // ---- a channel number

    // What a channel is tuned to: 14, then 17 to 21.
    #[inline(always)]
    pub fn look_up(&self, channel: u16) -> Result<Tuned, Refusal>
        ensures { by_number result ≡ rule.tune self.now.state self.now.store.now channel }
    {
        if 4095 < channel {
            return Err(Refusal::NoChannelNumber);
        }
        if !self.is_defined(channel) {
            return Err(Refusal::NotDefined);
        }
        match self.find_channel(channel) {
            Some(c) => self.tune_channel(c),
            None => Err(Refusal::NoRecord),
        }
    }
}

// What a channel is tuned to: the checks, and where they pass the look-up. 14 comes behind 1 and 2 and before 15 and 16.
#[tactic(auto, using(crate::proofs::Laws::refused_high, crate::proofs::Laws::refused_as), unfolding(rules::specs::Said::tune_said))]
pub fn tune(state: State, store: &[u8], channel: u16) -> Result<Tuned, Refusal>
    ensures value { by_number result ≡ rule.tune state store.now channel }
    ensures result_value { tuned_said (by_number result) ≡ tune_said state store.now channel }
{
    match check(state, store) {
        Ok(()) => Lookup::unlisted(state, store).look_up(channel),
        Err(refusal) => {
            if matches!(refusal, Refusal::NotLive | Refusal::Unreadable) && 4095 < channel {
                return Err(Refusal::NoChannelNumber);
            }
            Err(refusal)
        }
    }
}
