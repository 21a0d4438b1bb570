// Peer tables read across the boundary: the check of a body, and the body in lent slots.
#![tactic(auto)]

ghost use Rattle.std.specs.Prelude.{◌≡◌};
ghost use Rattle.peers_table.specs.Table.{check_peers};
ghost use Rattle.mrt_peers_read.specs.Tables.{table_out};

mod load;

pub use load::mrt_load_peers;

// The head of a peer table whose body holds every declared peer.
pub fn mrt_check_peers(body: &[u8], out: &mut [u64]) -> u32
    ensures answer { (out.new, result) ≡ table_out out.old (check_peers body.now) }
{
    match peers_table::check_peers(body) {
        Ok(head) => {
            let v = [
                head.collector as u64,
                head.name as u64,
                head.length as u64,
                head.count as u64,
                head.first as u64,
                head.end as u64,
            ];
            mrt_lent::hand_out(out, &v)
        }
        Err(r) => mrt_lent::refusal(r),
    }
}
