// Addresses of four or sixteen octets, in lent octets and in sixteen octets of their own. One that does not fit is not read and not
// written, so that every call answers.
#![tactic(auto)]

ghost use Rattle.std.specs.Prelude.{◌≡◌, ◌≤◌, ◌+◌, length};
ghost use Rattle.octets.specs.Octets.{patch};
ghost use Rattle.octets_address.specs.Address.{address_in, address_size, nonzero, octets_at, put_address, size_of};

// How many octets an address takes.
#[tactic(auto, unfolding(crate::specs::Address::size_of))]
pub fn size_of(long: bool) -> usize
    ensures answer { result ≡ size_of long }
{
    if long {
        return 16;
    }
    4
}

// How many octets an address of a family takes; none for a family that is not known.
#[tactic(auto, unfolding(crate::specs::Address::size_of, crate::specs::Address::address_size, crate::specs::Address::nonzero))]
pub fn address_size(family: u16) -> Option<usize>
    ensures answer { result ≡ nonzero (address_size family) }
{
    let long = family == 2;
    (long || family == 1).then_some(size_of(long))
}

// Copies four octets as one number.
fn put_four(out: &mut [u8], to: usize, s: &[u8], at: usize)
    requires { (to + 4 ≤ length out.old) × (at + 4 ≤ length s.now) }
    ensures { out.new ≡ patch out.old to (octets_at s.now at 4) }
{
    let stop = at + 4;
    octets_copies::store32(out, to, octets::be32(&s[at..stop], 0));
}

// Copies an address by fours: the library's copy of sixteen octets takes longer.
fn put_fours(out: &mut [u8], to: usize, s: &[u8], at: usize, long: bool)
    requires { (to + size_of long ≤ length out.old) × (at + size_of long ≤ length s.now) }
    ensures { out.new ≡ patch out.old to (octets_at s.now at (size_of long)) }
{
    put_four(out, to, s, at);
    if long {
        for i in 1..4 {
            put_four(out, to + 4 * i, s, at + 4 * i);
        }
    }
}

// The address at an offset, in the first of sixteen octets.
pub fn read_address(s: &[u8], at: usize, long: bool) -> [u8; 16]
    ensures answer { result ≡ address_in s.now at (size_of long) }
{
    let mut address = [0u8; 16];
    let size = size_of(long);
    let n = s.len();
    if n < size {
        return address;
    }
    if n - size < at {
        return address;
    }
    put_fours(&mut address, 0, s, at, long);
    address
}

// The octets of an address at an offset.
pub fn put_address(out: &mut [u8], at: usize, address: [u8; 16], long: bool)
    ensures answer { out.new ≡ put_address out.old at address (size_of long) }
{
    let size = size_of(long);
    let n = out.len();
    if n < size {
        return;
    }
    if n - size < at {
        return;
    }
    put_fours(out, at, &address, 0, long);
}
