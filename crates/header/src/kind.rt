// What a type alone decides.
ghost use Rattle.std.specs.Prelude.{◌≡◌};
ghost use Rattle.header.specs.Kind.{known, timed, size};

// Whether a type is known: 0 to 13, and then the first two of each sixteen up to 49.
pub fn is_known(kind: u16) -> bool
    ensures answer { result ≡ known kind }
{
    if kind < 14 {
        return true;
    }
    if 49 < kind {
        return false;
    }
    kind % 16 < 2
}

// Whether the header has microseconds: BGP4MP_ET, ISIS_ET and OSPFv3_ET do. By a match: the compiler makes jumps of it, so that where the
// next record starts does not wait for the type.
#[tactic(auto, unfolding(crate::specs::Kind::timed))]
pub(crate) fn is_timed(kind: u16) -> bool
    ensures { result ≡ timed kind }
{
    matches!(kind, 17 | 33 | 49)
}

// How many octets the header takes.
#[tactic(auto, unfolding(crate::specs::Kind::size))]
pub(crate) fn header_size(kind: u16) -> usize
    ensures { result ≡ size kind }
{
    if is_timed(kind) { 16 } else { 12 }
}
