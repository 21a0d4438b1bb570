// A walk that is lent.
ghost use Rattle.std.specs.Prelude.{◌≡◌, Ok, Err};
ghost use Rattle.answer.specs.declared.Refusal.TheVariants.{Beyond, NoRoom};
ghost use Rattle.mrt_lent.specs.Walks.{on_walk, walk_in};

use answer::Refusal;
use walk::Walk;

// The walk in two lent places, within n octets, where the places lent for what a call hands out are enough.
#[tactic(auto, unfolding(crate::specs::Walks::on_walk, crate::specs::Walks::holds_walk))]
pub fn lent_walk(n: usize, walk: &[u64], out: &[u64]) -> Result<Walk, Refusal>
    ensures { result ≡ on_walk n walk.now out.now (Ok (walk_in walk.now)) (Err NoRoom) (Err Beyond) }
{
    if walk.len() < 2 || 1 < walk[1] || n < walk[0] as usize {
        return Err(Refusal::Beyond);
    }
    if out.len() < 10 {
        return Err(Refusal::NoRoom);
    }
    Ok(Walk {
        position: walk[0] as usize,
        finished: walk[1] == 1,
    })
}
