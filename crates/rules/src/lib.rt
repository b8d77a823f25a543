// The shared types: what the records of the tables say, what the state holds, what the box answers.
// They hold what document 01 names, and of functions only the number of a refusal stands here: the meaning is specs/.
#![tactic(auto)]

ghost use Rattle.std.specs.Prelude.{◌≡◌};
ghost use Rattle.rules.specs.Refusals.{number};

// The tables, in the order of their places in the store.
#[derive(Clone, Copy, PartialEq, Eq)]
pub enum Table {
    Cds,
    Mms,
    Vcm,
    Dcm,
    Ntt,
}

// ---- what a record says, field by field as it is sent

// So many steps of 10 kHz (unit 0) or of 125 kHz (unit 1).
#[derive(Clone, Copy)]
pub struct Measure {
    pub unit: u8,
    pub number: u16,
}

// A CDS record: so many carriers, the first one and the spacing from one to the next.
#[derive(Clone, Copy)]
pub struct Carriers {
    pub count: u8,
    pub spacing: Measure,
    pub first: Measure,
}

// An MMS record.
#[derive(Clone, Copy)]
pub struct Mode {
    pub system: u8,
    pub inner: u8,
    pub split: u8,
    pub format: u8,
    pub symbols: u32,
}

// What a channel record says behind its carrier reference: transport 0 is digital, transport 1 analogue.
#[derive(Clone, Copy)]
pub enum Signal {
    Digital { program: u16, mode: u8 },
    Analogue { scrambled: u8, standard: u8 },
}

// A channel record of the VCM. `kind` is its type, 0 or 1 (hidden); `source` is the application number where application is 1.
#[derive(Clone, Copy)]
pub struct Channel {
    pub number: u16,
    pub application: u8,
    pub path: u8,
    pub kind: u8,
    pub source: u16,
    pub carrier: u8,
    pub signal: Signal,
}

// A range byte of the DCM.
#[derive(Clone, Copy)]
pub struct Range {
    pub defined: u8,
    pub count: u8,
}

// The head of a VCM: what stands between the map number and the records.
#[derive(Clone, Copy)]
pub struct VcmHead {
    pub included: u8,
    pub splice: u8,
    pub time: u32,
    pub count: u8,
}

// The head of a DCM: `count` is the data length, so many range bytes.
#[derive(Clone, Copy)]
pub struct DcmHead {
    pub first: u16,
    pub count: u8,
}

// The three language bytes of a names section. (By their names, as the rules speak of them.)
#[derive(Clone, Copy, Default)]
pub struct Language {
    pub first: u8,
    pub second: u8,
    pub third: u8,
}

// The first three body bytes of the revision descriptor without their reserved bits.
#[derive(Clone, Copy)]
pub struct Revision {
    pub version: u8,
    pub number: u8,
    pub last: u8,
}

// What a section that reads right is, for one who holds its bytes: its table, map number and language (0 where the table has none),
// its revision, and the place where its closing list begins.
#[derive(Clone, Copy)]
pub struct SectionHead {
    pub table: Table,
    pub map: u16,
    pub language: Language,
    pub revision: Revision,
    pub closing: usize,
}

// A part of what was lent: it begins at `start` and has `size` bytes.
#[derive(Clone, Copy)]
pub struct Part {
    pub start: usize,
    pub size: usize,
}

// ---- what the state holds

// A table's live version, or none: `present` is 1, or 0 and so are all its fields. (A number and no `Option`: refusal 2
// judges a state in which it is neither 1 nor 0, or 0 beside fields that are not.)
#[derive(Clone, Copy, PartialEq, Eq, Default)]
pub struct LiveVersion {
    pub present: u8,
    pub version: u8,
    pub last: u8,
}

// The version being gathered, or none, `present` as above. The ones of `held` are the numbers held: bit n is section n.
#[derive(Clone, Copy, PartialEq, Eq, Default)]
pub struct GatheredVersion {
    pub present: u8,
    pub version: u8,
    pub last: u8,
    pub held: u8,
}

// What is held of one table. `half` is the half set: the live one, and gathering uses the other.
#[derive(Clone, Copy)]
pub struct Holding {
    pub live: LiveVersion,
    pub gathered: GatheredVersion,
    pub half: u8,
}

// What is given at the start and never changes: the map number, and the language of names.
#[derive(Clone, Copy)]
pub struct Settings {
    pub map: u16,
    pub language: [u8; 3],
}

// What is held of each table.
#[derive(Clone, Copy)]
pub struct Tables {
    pub cds: Holding,
    pub mms: Holding,
    pub vcm: Holding,
    pub dcm: Holding,
    pub ntt: Holding,
}

// The tables stand first, so that each holding begins at a multiple of its size: a state is copied by value, and quickly so.
#[derive(Clone, Copy)]
pub struct State {
    pub tables: Tables,
    pub settings: Settings,
}

// ---- what the box answers

// Why it refuses, by the numbers of document 01: the first is 1.
#[derive(Clone, Copy, Debug, PartialEq, Eq)]
pub enum Refusal {
    ShortStore = 1,
    BadState,
    BadSize,
    NoTableNumber,
    BadCrc,
    OtherProtocol,
    NoTable,
    CutShort,
    ZeroBits,
    OutOfLimits,
    BadRevision,
    TooManySections,
    OtherLast,
    NoChannelNumber,
    NotLive,
    Unreadable,
    NotDefined,
    NoRecord,
    NoCarrier,
    OutOfReach,
    NoMode,
}

impl Refusal {
    pub fn number(self) -> u8
        ensures { result ≡ number self }
    {
        self as u8
    }
}

// To an offered section, where it is not refused. `Stored` says how many sections are still missing, `Live` the version.
#[derive(Clone, Copy)]
pub enum Answer {
    OtherMap,
    Repeat,
    Stored(u8),
    Live(u8),
}

// The answer, with what is then held of the section's table: a refusal has none, since it changes nothing.
#[derive(Clone, Copy)]
pub struct Stepped {
    pub answer: Answer,
    pub holding: Holding,
}

// The answer, with the state after it.
#[derive(Clone, Copy)]
pub struct Offered {
    pub answer: Answer,
    pub state: State,
}

// To a channel number, where it is not refused.
#[derive(Clone, Copy)]
pub enum Tuned {
    Digital {
        hidden: u8,
        path: u8,
        khz: u32,
        program: u16,
        mode: Mode,
    },
    Analogue {
        hidden: u8,
        path: u8,
        khz: u32,
        standard: u8,
        scrambled: u8,
    },
    Application {
        hidden: u8,
        path: u8,
        number: u16,
    },
}

// To the question for a channel's label, where it is not refused: the name is the `size` bytes at `start` of the store, or the label is
// the lent fallback. (No `Option<Part>`: `None` would say that there is no label.)
#[derive(Clone, Copy)]
pub enum Labelled {
    Named { start: usize, size: usize },
    Fallback,
}
