// One BGP message that fills its octets.
ghost use Rattle.std.specs.Prelude.{◌≡◌};
ghost use Rattle.octets.specs.Octets.{ones};
ghost use Rattle.walk_checks.specs.Message.{message_bounds, message};
ghost use Rattle.walk_checks.specs.Within.{offered};

use crate::Bounds;

#[tactic(auto, unfolding(crate::specs::Message::message))]
pub(crate) fn is_message(s: &[u8]) -> bool
    ensures { result ≡ message s.now }
{
    let n = s.len();
    if n < 19 || !is_marker(s) {
        return false;
    }
    let length = octets::be16(s, 16);
    let bounds = message_bounds(octets::octet(s, 18));
    length as usize == n && bounds.is_some_and(|b| b.hold(u32::from(length)))
}

// Four numbers for sixteen octets: no loop, no copy.
#[tactic(auto, using(crate::proofs::Messages::quarters))]
fn is_marker(s: &[u8]) -> bool
    ensures { result ≡ ones s.now 0 16 }
{
    octets::be32(s, 0) == u32::MAX
        && octets::be32(s, 4) == u32::MAX
        && octets::be32(s, 8) == u32::MAX
        && octets::be32(s, 12) == u32::MAX
}

#[tactic(auto, unfolding(crate::specs::Message::message_bounds))]
fn message_bounds(kind: u8) -> Option<Bounds>
    ensures { result ≡ offered (message_bounds kind) }
{
    match kind {
        1 => Some(Bounds {
            low: 29,
            high: 4096,
        }),
        2 => Some(Bounds {
            low: 23,
            high: 65535,
        }),
        3 => Some(Bounds {
            low: 21,
            high: 65535,
        }),
        4 => Some(Bounds { low: 19, high: 19 }),
        _ => None,
    }
}
