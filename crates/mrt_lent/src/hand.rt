// Values into lent places.
ghost use Rattle.std.specs.Prelude.{◌≡◌};
ghost use Rattle.answer.specs.Refusal.{number_of};
ghost use Rattle.octets.specs.Octets.{patch};
ghost use Rattle.mrt_lent.specs.Export.{exported, mark, sixteen_of};
ghost use Rattle.mrt_lent.specs.Rows.{none_handed};

use crate::Handed;
use answer::Refusal;

// The values at the front of the lent places, as far as there are places. One by one: the library's copy is a call, which takes longer
// than ten stores. By an index: of places that are written through a zip of `iter_mut`, a proof knows how many they are and no more.
pub fn put_values(out: &mut [u64], values: &[u64])
    ensures { out.new ≡ patch out.old 0 values.now }
{
    let m = values.len().min(out.len());
    for i in 0..m {
        out[i] = values[i];
    }
}

// The values, where there are places for all of them.
pub fn hand_out(out: &mut [u64], values: &[u64]) -> u32
    ensures { (out.new, result) ≡ exported out.old 0 values.now }
{
    if out.len() < values.len() {
        return refusal(Refusal::NoRoom);
    }
    put_values(out, values);
    0
}

// The number that a refusal is returned as, under the name that the boundary has for it.
pub fn refusal(r: Refusal) -> u32
    ensures { result ≡ number_of r }
{
    u32::from(r)
}

// A truth value as a number.
pub fn mark_of(b: bool) -> u64
    ensures { result ≡ mark b }
{
    u64::from(b)
}

// Sixteen octets, of an address or a prefix.
pub fn sixteen(s: &[u8]) -> [u8; 16]
    ensures { result ≡ sixteen_of s.now }
{
    let mut a = [0u8; 16];
    octets_copies::put_octets(&mut a, 0, s);
    a
}

// No row, with a refusal's number, or 0 where there is none to hand out.
pub fn none_handed(number: u32) -> Handed
    ensures { result ≡ none_handed number }
{
    Handed {
        count: 0,
        refusal: number,
    }
}
