// The modulation values that ANSI/SCTE 65 (003) assigns: a row for each, in the order of the standard and with its words, to be laid beside
// it and ticked row by row. A reserved value has no row, only a remark. The check refuses these lists if a row is left out or made up:
// they are compared, value by value, with what the rules say (`rules/specs/Tables.antt`).

// Table 5.7 of 003, transmission_system.
pub const SYSTEMS: [u8; 4] = [
    0, // unknown — The transmission system is not known.
    // 1 Reserved (ETSI)
    2, // ITU-T annex B — The transmission system conforms to the ITU North American standard specified in Annex B of ITU Rec. J.83 [22].
    3, // Defined for use in other systems
    4, // ATSC — The transmission system conforms to the ATSC Digital Television Standard [4].
    // 5-15 Reserved (satellite)
];

// Table 5.8 of 003, inner_coding_mode.
pub const CODINGS: [u8; 9] = [
    0, // rate 5/11 coding
    1, // rate 1/2 coding
    // 2 Reserved
    3, // rate 3/5 coding
    // 4 Reserved
    5, // rate 2/3 coding
    // 6 Reserved
    7, // rate 3/4 coding
    8, // rate 4/5 coding
    9, // rate 5/6 coding
    // 10 Reserved
    11, // rate 7/8 coding
    // 12-14 Reserved
    15, // none — indicates that the waveform does not use concatenated coding
];

// Table 5.9 of 003, modulation_format.
pub const FORMATS: [u8; 25] = [
    0, // unknown — The modulation format is unknown.
    1, // QPSK — The modulation format is QPSK (Quadrature Phase Shift Keying).
    2, // BPSK — The modulation format is BPSK (Binary Phase Shift Keying).
    3, // OQPSK — The modulation format is offset QPSK.
    4, // VSB 8 — The modulation format is 8-level VSB (Vestigial Sideband).
    5, // VSB 16 — The modulation format is 16-level VSB.
    6, // QAM 16 — Modulation format 16-level Quadrature Amplitude Modulation (QAM).
    7, // QAM 32 — 32-level QAM
    8, // QAM 64 — 64-level QAM
    9, // QAM 80 — 80-level QAM
    10, // QAM 96 — 96-level QAM
    11, // QAM 112 — 112-level QAM
    12, // QAM 128 — 128-level QAM
    13, // QAM 160 — 160-level QAM
    14, // QAM 192 — 192-level QAM
    15, // QAM 224 — 224-level QAM
    16, // QAM 256 — 256-level QAM
    17, // QAM 320 — 320-level QAM
    18, // QAM 384 — 384-level QAM
    19, // QAM 448 — 448-level QAM
    20, // QAM 512 — 512-level QAM
    21, // QAM 640 — 640-level QAM
    22, // QAM 768 — 768-level QAM
    23, // QAM 896 — 896-level QAM
    24, // QAM 1024 — 1024-level QAM
    // 25-31 Reserved
];
