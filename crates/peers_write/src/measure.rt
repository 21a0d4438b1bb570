// What peers take in a body.
ghost use Rattle.std.specs.Prelude.{◌≡◌, ◌≤◌, true, false, length, MatchResult};
ghost use Rattle.answer.specs.declared.Refusal.TheVariants.{TooLarge};
ghost use Rattle.peers_entry.specs.Peer.{peer_size};
ghost use Rattle.peers_write.specs.Write.{any_unfit};
ghost use Rattle.peers_write.specs.Steps.{sizes};

use answer::Refusal;
use peers_entry::Peer;

// The octets of a peer by the low two bits of its type: a table leaves nothing to foresee, and here no next look waits for it.
const SIZES: [usize; 4] = [11, 23, 13, 25];

fn size_of(kind: u8) -> usize
    ensures { result ≡ peer_size kind }
{
    let k = (kind % 4) as usize;
    SIZES[k]
}

// How many octets the peers take, or a refusal where the AS of one of them does not fit its field. Every peer is looked at, so that
// there is no branch to foresee.
pub(crate) fn measure(peers: &[Peer]) -> Result<usize, Refusal>
    requires { length peers.now ≤ 65535 }
    ensures { MatchResult result
        (λ n. (any_unfit peers.now (length peers.now) ≡ false) × (n ≡ sizes peers.now (length peers.now)))
        (λ why. (why ≡ TooLarge) × (any_unfit peers.now (length peers.now) ≡ true)) }
{
    let mut octets = 0;
    let mut unfit = false;
    for p in peers {
        octets += size_of(p.kind);
        unfit |= peers_entry::unfit_as(*p);
    }
    if unfit {
        return Err(Refusal::TooLarge);
    }
    Ok(octets)
}
