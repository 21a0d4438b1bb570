// Whether a body is filled by one route.
ghost use Rattle.std.specs.Prelude.{◌≡◌, ◌≤◌};
ghost use Rattle.answer.specs.Refusal.{outcome_number};
ghost use Rattle.dump_layout.specs.Check.{filled, check_dump};

use answer::Refusal;

// Whether a body is that of a TABLE_DUMP record.
#[tactic(auto, using(octets_address::proofs::Addresses::found), unfolding(crate::specs::Check::check_dump))]
pub fn check_dump(body: &[u8], subtype: u16) -> Result<(), Refusal>
    ensures answer { outcome_number result ≡ check_dump body.now subtype }
{
    let x = octets_address::address_size(subtype).ok_or(Refusal::OtherSubtype)?;
    if !is_filled(body, x) {
        return Err(Refusal::BodyNotMet);
    }
    Ok(())
}

// Whether a body with addresses of x octets ends with its attributes, and its prefix fits an address.
#[tactic(auto, using(octets::proofs::Parts::be_front), unfolding(crate::specs::Check::filled))]
fn is_filled(body: &[u8], x: usize) -> bool
    requires { x ≤ 16 }
    ensures { result ≡ filled x body.now }
{
    let n = body.len();
    let start = 14 + 2 * x;
    if n < start {
        return false;
    }
    let at = 12 + 2 * x;
    if octets::be16(&body[at..start], 0) as usize != n - start {
        return false;
    }
    octets::octet(body, 4 + x) as usize <= 8 * x
}
