// The CRC of ISO/IEC 13818-1 Annex A, eight bytes a step. No table is written down: every loop over the eight bits of a byte
// has the plain form of which the compiler makes a table in the program's constant data.
#![tactic(auto)]

ghost use Rattle.std.specs.Prelude.{ℕ, [], ◌∷◌, ◌≡◌, ◌+◌, ◌*◌, ◌^◌, ◌≤◌, ◌<◌, length};
ghost use Rattle.std.specs.Int.Bits.{bit_xor};
ghost use Rattle.rules.specs.Crc.{crc_from, crc_of, shift};
ghost use Rattle.crc.specs.Folding.{turn, zeros, power, residue, four, four_at, eight, Folded};

// ---- a byte at a time

// One zero bit into the register.
#[tactic(auto, unfolding(rules::specs::Crc::shift))]
fn zero_bit(r: u32) -> u32
    ensures { result ≡ shift r 0 }
{
    if r >= 0x8000_0000 {
        return (r << 1) ^ 0x04c1_1db7;
    }
    r << 1
}

// One byte into the register: it joins the eight highest bits, and eight zero bits come.
#[tactic(auto, unfolding(rules::specs::Crc::shift_all))]
fn byte_step(reg: u32, b: u8) -> u32
    ensures { result ≡ crc_from reg (b ∷ []) }
{
    let mut r = reg ^ ((b as u32) << 24);
    for _ in 0..8u32 {
        r = zero_bit(r);
    }
    r
}

// The register after the bytes of s, byte by byte.
fn crc_rest(start: u32, s: &[u8]) -> u32
    ensures { result ≡ crc_from start s.now }
{
    s.iter().fold(start, |reg, &b| byte_step(reg, b))
}

// ---- eight bytes at a time

// What the polynomial leaves of the powers x^64 to x^120 (x^64 modulo the polynomial, and so on), by which eight bytes are moved up by
// eight more: x^64 is for the last of them, and x^120 for the first.
const X64: u64 = 0x490d_678d;

const X72: u64 = 0x1b28_0d78;

const X80: u64 = 0x4f57_6811;

const X88: u64 = 0x5ba1_dcca;

const X96: u64 = 0xf200_aa66;

const X104: u64 = 0x8090_a067;

const X112: u64 = 0xf9ac_87ee;

const X120: u64 = 0x07f6_e306;

// A register of 64 bits moved up by one bit: where a bit leaves at the top, the power comes in.
#[tactic(auto, unfolding(crate::specs::Folding::turn))]
fn next_bit<const POWER: u64>(r: u64) -> u64
    ensures { result ≡ turn 63 POWER r }
{
    if r >= 0x8000_0000_0000_0000 {
        return (r << 1) ^ POWER;
    }
    r << 1
}

// k times one of these powers, of a byte with j of the eight bytes behind it. It is not reduced again, so it has up to 39 bits. The
// power is a const parameter, since only of a loop with a number known at compile time the compiler makes a table, one for each power.
fn times<const POWER: u64>(k: u8) -> u64
    ensures { (j : ℕ) → j < 8 → POWER ≡ power (8 + j) → Folded (k * 2 ^ (8 * j)) result }
{
    let mut r = (k as u64) << 56;
    for _ in 0..8u32 {
        r = next_bit::<POWER>(r);
    }
    r
}

// The four bytes at a place as one number, the first one highest.
#[tactic(auto, unfolding(crate::specs::Folding::four_at))]
fn word_at(s: &[u8], i: usize) -> u32
    requires { i + 4 ≤ length s.now }
    ensures { result ≡ four_at s.now i }
{
    u32::from_be_bytes([s[i], s[i + 1], s[i + 2], s[i + 3]])
}

// The lower four of eight bytes folded, each by the power of its place.
fn fold_low(w: u32) -> u64
    ensures { Folded w result }
{
    let [first, second, third, fourth] = w.to_be_bytes();
    times::<X64>(fourth) ^ times::<X72>(third) ^ times::<X80>(second) ^ times::<X88>(first)
}

// The upper four of eight bytes folded.
fn fold_high(fourth: u8, third: u8, second: u8, first: u8) -> u64
    ensures { Folded (four first second third fourth * 2 ^ 32) result }
{
    times::<X96>(fourth) ^ times::<X104>(third) ^ times::<X112>(second) ^ times::<X120>(first)
}

// The first eight bytes of s, joined by what was folded before them, folded in their turn. What was folded has 40 bits, so it
// reaches up to the fourth byte.
fn fold(e: u64, s: &[u8]) -> u64
    requires { (e < 2 ^ 40) × (8 ≤ length s.now) }
    ensures { Folded (bit_xor e (eight s.now)) result }
{
    let low = (e % 0x1_0000_0000) as u32 ^ word_at(s, 4);
    let fourth = (e / 0x1_0000_0000) as u8 ^ s[3];
    fold_low(low) ^ fold_high(fourth, s[2], s[1], s[0])
}

// Four zero bytes into the register.
#[tactic(auto, unfolding(rules::specs::Crc::crc_from, rules::specs::Crc::bits_of, rules::specs::Crc::shift_all))]
fn four_zeros(r: u32) -> u32
    ensures { result ≡ zeros 4 r }
{
    byte_step(byte_step(byte_step(byte_step(r, 0), 0), 0), 0)
}

// The register after the first eight bytes of s, joined by what was folded before them.
fn unfolded(e: u64, s: &[u8]) -> u32
    requires { 8 ≤ length s.now }
    ensures { result ≡ zeros 4 (residue (bit_xor e (eight s.now))) }
{
    let high = (e / 0x1_0000_0000) as u32 ^ word_at(s, 0);
    let low = (e % 0x1_0000_0000) as u32 ^ word_at(s, 4);
    four_zeros(four_zeros(high) ^ low)
}

// ---- all bytes

// The register after all bytes of s, from start.
pub fn crc_from(start: u32, s: &[u8]) -> u32
    ensures { result ≡ crc_from start s.now }
{
    if s.len() < 16 {
        return crc_rest(start, s);
    }
    // the start joins the first four bytes; with four zero bytes behind it, it joins the eight
    let mut e = four_zeros(start) as u64;
    let mut rest = s;
    // what was folded goes onto the eight bytes behind it, so a step needs sixteen: the last eight are no chunk like the others
    // (nor are they `chunks_exact` of a part of s: where that ends would be two lines more and a law of its own)
    while rest.len() >= 16 {
        e = fold(e, rest);
        rest = &rest[8..];
    }
    crc_rest(unfolded(e, rest), &rest[8..])
}

// The register after all bytes of s, from all ones. Over a section with its CRC it is 0.
pub fn crc(s: &[u8]) -> u32
    ensures { result ≡ crc_of s.now }
{
    crc_from(0xffff_ffff, s)
}
