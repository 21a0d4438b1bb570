// TABLE_DUMP bodies across the boundary, read.
#![tactic(auto)]

ghost use Rattle.std.specs.Prelude.{◌≡◌};
ghost use Rattle.dump_read.specs.Read.{dump_of};
ghost use Rattle.mrt_dump.specs.Bodies.{dump_out};

use answer::Refusal;
use mrt_lent::{put_values, refusal};

// The fields of a TABLE_DUMP body; its prefix and its peer's address in 16 octets each.
pub fn mrt_read_table_dump(
    body: &[u8],
    subtype: u16,
    out: &mut [u64],
    prefix: &mut [u8],
    peer: &mut [u8],
) -> u32
    ensures answer { (out.new, (prefix.new, (peer.new, result)))
        ≡ dump_out out.old prefix.old peer.old (dump_of body.now subtype) }
{
    match dump_read::read_dump(body, subtype) {
        Err(why) => refusal(why),
        Ok(r) => {
            if out.len() < 8 || prefix.len() < 16 || peer.len() < 16 {
                return refusal(Refusal::NoRoom);
            }
            let d = r.dump;
            let v = [
                d.view as u64,
                d.sequence as u64,
                d.bits as u64,
                d.status as u64,
                d.originated as u64,
                d.asn as u64,
                r.start as u64,
                r.end as u64,
            ];
            put_values(out, &v);
            let network = d.prefix;
            let address = d.peer;
            octets_address::put_address(prefix, 0, network, true);
            octets_address::put_address(peer, 0, address, true);
            0
        }
    }
}
