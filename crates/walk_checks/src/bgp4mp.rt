// Types 16 and 17: the peer's header, then two states or one BGP message.
ghost use Rattle.std.specs.Prelude.{◌≡◌, not, eqb};
ghost use Rattle.answer.specs.Refusal.{outcome_number};
ghost use Rattle.octets_address.specs.Address.{nonzero};
ghost use Rattle.walk_checks.specs.Bgp4mp.{as_size, state_change, tail, bgp4mp};

use crate::bgp::is_message;
use answer::Refusal;

#[tactic(auto, using(crate::proofs::Largest::sizes), unfolding(crate::specs::Bgp4mp::bgp4mp, crate::specs::Bgp4mp::envelope))]
pub fn check_bgp4mp(body: &[u8], subtype: u16) -> Result<(), Refusal>
    ensures answer { outcome_number result ≡ bgp4mp subtype body.now }
{
    let a = as_size(subtype).ok_or(Refusal::OtherSubtype)?;
    let n = body.len();
    if n < 2 * a + 4 {
        return Err(Refusal::BodyNotMet);
    }
    let family = octets::be16(body, 2 * a + 2);
    let x = octets_address::address_size(family).ok_or(Refusal::BodyNotMet)?;
    let at = 2 * a + 4 + 2 * x;
    if n < at || !ends_well(&body[at..], subtype) {
        return Err(Refusal::BodyNotMet);
    }
    Ok(())
}

// What stands after the addresses.
#[tactic(auto, unfolding(crate::specs::Bgp4mp::tail))]
fn ends_well(s: &[u8], subtype: u16) -> bool
    ensures { result ≡ tail subtype s.now }
{
    if is_state_change(subtype) {
        s.len() == 4
    } else {
        is_message(s)
    }
}

// Whether a record with this subtype ends with two states.
#[tactic(auto, unfolding(crate::specs::Bgp4mp::state_change))]
pub fn is_state_change(subtype: u16) -> bool
    ensures answer { result ≡ state_change subtype }
{
    subtype == 0 || subtype == 5
}

// Whether a record of types 16 and 17 with this subtype is carried.
#[tactic(auto, unfolding(octets_address::specs::Address::nonzero))]
pub fn is_carried(subtype: u16) -> bool
    ensures answer { result ≡ not (eqb (as_size subtype) 0) }
{
    as_size(subtype).is_some()
}

// The octets of an AS number by subtype.
const AS_SIZES: [Option<usize>; 12] = [
    Some(2),
    Some(2),
    None,
    None,
    Some(4),
    Some(4),
    Some(2),
    Some(4),
    Some(2),
    Some(4),
    Some(2),
    Some(4),
];

fn as_size(subtype: u16) -> Option<usize>
    ensures { result ≡ nonzero (as_size subtype) }
{
    AS_SIZES.get(usize::from(subtype)).copied().flatten()
}
