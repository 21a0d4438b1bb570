// Big-endian numbers in lent octets. Where a slice ends, octets read as 0 and stores are dropped, so
// that every call answers; a caller that has tested the length pays for no second test.
#![tactic(auto)]

ghost use Rattle.std.specs.Prelude.{◌≡◌, ℕ, ◌+◌, ◌<◌, [], ◌∷◌, get_or};
ghost use Rattle.octets.specs.Octets.{be_at, bytes_of, patch};

use std::array;

// The octet at an index.
pub fn octet(s: &[u8], at: usize) -> u8
    ensures { result ≡ get_or s.now at 0 }
{
    if at < s.len() {
        return s[at];
    }
    0
}

// The N octets from an index on.
fn word<const N: usize>(s: &[u8], at: usize) -> [u8; N]
    ensures { (i : ℕ) → i < N → get_or result i 0 ≡ get_or s.now (at + i) 0 }
{
    match s.get(at..) {
        Some(rest) => array::from_fn(|i| octet(rest, i)),
        None => [0; N],
    }
}

// The number of two octets.
pub fn be16(s: &[u8], at: usize) -> u16
    ensures { result ≡ be_at s.now at 2 }
{
    u16::from_be_bytes(word(s, at))
}

// The number of four octets.
pub fn be32(s: &[u8], at: usize) -> u32
    ensures { result ≡ be_at s.now at 4 }
{
    u32::from_be_bytes(word(s, at))
}

// Stores one octet.
#[tactic(auto, using(crate::proofs::Stores::patch_beyond), unfolding(crate::specs::Octets::patch))]
pub fn put_octet(out: &mut [u8], at: usize, v: u8)
    ensures { out.new ≡ patch out.old at (v ∷ []) }
{
    if at < out.len() {
        out[at] = v;
    }
}

// Stores N octets, of which those that come past the end are dropped.
pub fn put<const N: usize>(out: &mut [u8], at: usize, octets: [u8; N])
    ensures { out.new ≡ patch out.old at octets.entry }
{
    if out.len() <= at {
        return;
    }
    for i in 0..N {
        put_octet(out, at + i, octets[i]);
    }
}

// Stores a number in two octets.
#[tactic(auto, unfolding(crate::specs::Octets::bytes_of))]
pub fn put_be16(out: &mut [u8], at: usize, v: u16)
    ensures { out.new ≡ patch out.old at (bytes_of 2 v) }
{
    put(out, at, u16::to_be_bytes(v));
}

// Stores a number in four octets.
#[tactic(auto, using(crate::proofs::Words::bytes_four))]
pub fn put_be32(out: &mut [u8], at: usize, v: u32)
    ensures { out.new ≡ patch out.old at (bytes_of 4 v) }
{
    put(out, at, u32::to_be_bytes(v));
}
