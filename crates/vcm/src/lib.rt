// The virtual channel map, VCM: its head, its channel record, and the way over its records. b is a section without its CRC.
#![tactic(auto, unfolding(rules::specs::Tables::vcm, rules::specs::Tables::channel_of, rules::specs::Tables::channel_fair))]

ghost use Rattle.std.specs.Prelude.{◌≡◌, true, ◌&&◌, eqb};
ghost use Rattle.rules.specs.Bytes.{from};
ghost use Rattle.rules.specs.Layout.{records};
ghost use Rattle.rules.specs.Refusals.{by_number};
ghost use Rattle.rules.specs.Tables.{vcm_head_zeros, vcm_head_of, vcm};
ghost use Rattle.rules.specs.Tables.{transport_of, channel_zeros, signal_of, channel_of, standard_fair, channel_fair};
ghost use Rattle.rules.specs.declared.Channel.{Channel};
ghost use Rattle.rules.specs.declared.Table.TheVariants as table;
ghost use Rattle.fields.specs.Place.{Stands};
ghost use Rattle.fields.specs.Outline.{outline_of};
ghost use Rattle.rules.proofs.Limits.{vcm_limited};

use fields::Outline;
use fields::records::Records;
use rules::{Channel, Refusal, Signal, VcmHead};

// Bytes of the head, and of a record.
const HEAD: usize = 7;

pub const SIZE: usize = 9;

// The zero bits of the head are 0: else 9.
#[tactic(auto, unfolding(rules::specs::Tables::vcm_head_zeros))]
fn head_zeros(r: &[u8]) -> bool
    ensures { result ≡ vcm_head_zeros r.now }
{
    let included = fields::byte(r, 0);
    included / 64 == 0 && included % 32 == 0 && fields::byte(r, 1) % 128 == 0
}

// What the head with these bytes says.
#[tactic(auto, unfolding(rules::specs::Tables::vcm_head_of))]
fn head_of(r: &[u8]) -> VcmHead
    ensures { result ≡ vcm_head_of r.now }
{
    let included = fields::byte(r, 0);
    let splice = fields::byte(r, 1);
    let t3 = fields::byte(r, 2);
    let t2 = fields::byte(r, 3);
    let t1 = fields::byte(r, 4);
    let t0 = fields::byte(r, 5);
    let count = fields::byte(r, 6);
    VcmHead {
        included: included / 32 % 2,
        splice: splice / 128,
        time: u32::from_be_bytes([t3, t2, t1, t0]),
        count,
    }
}

// Where the records of a section stand: behind the head; or 8, 9. A channel record carries its number itself and takes no index.
pub fn outline(b: &[u8]) -> Result<Outline, Refusal>
    ensures { by_number result ≡ outline_of table.Vcm b.now }
{
    if fields::short(b, fields::HEADER, HEAD) {
        return Err(Refusal::CutShort);
    }
    let r = fields::part(b, fields::HEADER, HEAD);
    if !head_zeros(r) {
        return Err(Refusal::ZeroBits);
    }
    let h = head_of(r);
    Ok(Outline {
        at: fields::HEADER + HEAD,
        map: fields::word(b, 5),
        first: 0,
        count: h.count,
        included: h.included,
    })
}

// Whether a record's signal is digital: transport 0. Transport 1 is analogue.
#[tactic(auto, unfolding(rules::specs::Tables::transport_of))]
fn is_digital(r: &[u8]) -> bool
    ensures { result ≡ eqb (transport_of r.now) 0 }
{
    fields::byte(r, 2) / 16 % 2 == 0
}

// The zero bits of a record are 0, those of its signal for transport 1: else 9.
#[tactic(auto, unfolding(rules::specs::Tables::channel_zeros))]
fn channel_zeros(r: &[u8]) -> bool
    ensures { result ≡ channel_zeros r.now }
{
    fields::byte(r, 0) / 16 == 0
        && fields::byte(r, 2) / 64 % 2 == 0
        && (is_digital(r)
            || (fields::byte(r, 6) / 16 % 8 == 0
                && fields::byte(r, 7) == 0
                && fields::byte(r, 8) == 0))
}

// Transport 0 is digital, transport 1 analogue.
#[tactic(auto, unfolding(rules::specs::Tables::signal_of))]
fn signal_of(r: &[u8]) -> Signal
    ensures { result ≡ signal_of r.now }
{
    let high = fields::byte(r, 6);
    if is_digital(r) {
        let low = fields::byte(r, 7);
        let mode = fields::byte(r, 8);
        return Signal::Digital {
            program: u16::from_be_bytes([high, low]),
            mode,
        };
    }
    Signal::Analogue {
        scrambled: high / 128,
        standard: high % 16,
    }
}

// The channel number of the record with these bytes: all that a search needs of the records that it passes.
pub fn number_of(r: &[u8]) -> u16
    ensures { result ≡ (channel_of r.now).number }
{
    let high = fields::byte(r, 0);
    let low = fields::byte(r, 1);
    u16::from_be_bytes([high % 16, low])
}

// What the record with these bytes says.
pub fn channel_of(r: &[u8]) -> Channel
    ensures { result ≡ channel_of r.now }
{
    let number = number_of(r);
    let flags = fields::byte(r, 2);
    let source = fields::byte(r, 3);
    let source_low = fields::byte(r, 4);
    let carrier = fields::byte(r, 5);
    let signal = signal_of(r);
    Channel {
        number,
        application: flags / 128,
        path: flags / 32 % 2,
        kind: flags % 16,
        source: u16::from_be_bytes([source, source_low]),
        carrier,
        signal,
    }
}

// An analogue signal's video standard is at most 4.
#[tactic(auto, unfolding(rules::specs::Tables::signal_of, rules::specs::Tables::standard_fair))]
fn standard_fair(r: &[u8]) -> bool
    ensures { result ≡ standard_fair (signal_of r.now) }
{
    is_digital(r) || fields::byte(r, 6) % 16 <= 4
}

// Type at most 1, video standard at most 4: else 10.
fn channel_fair(r: &[u8]) -> bool
    ensures { result ≡ channel_fair 0 (channel_of r.now) }
{
    fields::byte(r, 2) % 16 <= 1 && standard_fair(r)
}

// Whether a record is right: its zero bits are 0 and its values fair. A digital one is told by two of its bytes.
#[tactic(auto, unfolding(rules::specs::Tables::channel_zeros, rules::specs::Tables::channel_of, rules::specs::Tables::channel_fair))]
fn is_right(r: &[u8]) -> bool
    ensures { result ≡ true → (channel_zeros r.now && channel_fair 0 (channel_of r.now)) ≡ true }
{
    let flags = fields::byte(r, 2);
    fields::byte(r, 0) <= 15
        && flags / 64 % 2 == 0
        && flags % 16 <= 1
        && (is_digital(r) || channel_zeros(r))
        && standard_fair(r)
}

// The layout of the table, asked of bytes: the head says whether descriptors are included.
#[derive(Clone, Copy)]
pub struct Vcm {
    pub included: u8,
}

impl Records for Vcm {
    ghost Row = { Channel };

    ghost layout = { λ s. vcm s.included };

    fn size(&self, b: &[u8], at: usize) -> usize {
        SIZE
    }

    fn zeros(&self, r: &[u8]) -> bool {
        channel_zeros(r)
    }

    fn fair(&self, index: u16, r: &[u8]) -> bool {
        channel_fair(r)
    }

    fn is_right(&self, index: u16, r: &[u8]) -> bool {
        is_right(r)
    }

    fn takes(&self, r: &[u8]) -> u16 {
        0
    }

    fn described(&self) -> bool {
        self.included == 1
    }

    ghost limited = { λ s. vcm_limited s.included };
}

// The place behind the records of an outline; or 8, 9, 10.
pub fn past_channels(b: &[u8], o: Outline) -> Result<usize, Refusal>
    ensures { Stands b.now result (records (vcm o.included) o.count o.first (from b.now o.at)) }
{
    let rows = Vcm {
        included: o.included,
    };
    fields::records::past_records(&rows, b, o)
}
