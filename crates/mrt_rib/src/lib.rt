// RIB bodies across the boundary, read: the head, and how old a route is.
#![tactic(auto)]

ghost use Rattle.std.specs.Prelude.{◌≡◌};
ghost use Rattle.rib_head.specs.Age.{age_of};
ghost use Rattle.rib_read.specs.Rib.{rib_of};
ghost use Rattle.mrt_rib.specs.Bodies.{rib_out};

use answer::Refusal;
use mrt_lent::{put_values, refusal};

// The head of a RIB body, and its prefix in 16 octets.
#[tactic(auto, unfolding(crate::specs::Bodies::rib_out))]
pub fn mrt_read_rib(body: &[u8], subtype: u16, out: &mut [u64], prefix: &mut [u8]) -> u32
    ensures answer { (out.new, (prefix.new, result))
        ≡ rib_out out.old prefix.old (rib_of body.now subtype) }
{
    match rib_read::read_rib(body, subtype) {
        Err(r) => refusal(r),
        Ok(rib) => {
            if out.len() < 5 || prefix.len() < 16 {
                return refusal(Refusal::NoRoom);
            }
            let v = [
                rib.sequence as u64,
                rib.bits as u64,
                rib.declared as u64,
                rib.count as u64,
                rib.entries as u64,
            ];
            put_values(out, &v);
            let octets = rib.prefix;
            octets_copies::put_octets(prefix, 0, &octets);
            0
        }
    }
}

// How old a route was when its record was written, in seconds.
pub fn mrt_age(timestamp: u32, originated: u32) -> i64
    ensures answer { result ≡ age_of timestamp originated }
{
    rib_head::age(timestamp, originated)
}
