// Octets copied, and numbers stored whole where there is room for them. Where the output ends, octets are dropped, so that every call
// answers.
#![tactic(auto)]

ghost use Rattle.std.specs.Prelude.{◌≡◌, ◌+◌, ◌*◌, ◌<◌, ◌≤◌, leb, length, take};
ghost use Rattle.octets.specs.Octets.{bytes_of, part, patch};

// Whether m octets from an offset on lie within n.
fn has_room(n: usize, at: usize, m: usize) -> bool
    ensures answer { result ≡ leb (at + m) n }
{
    n.checked_sub(m).is_some_and(|last| at <= last)
}

// Stores N octets. In a part whose length is written out no octet is tested for room.
fn store<const N: usize>(out: &mut [u8], at: usize, v: [u8; N])
    ensures { out.new ≡ patch out.old at v.entry }
{
    if !has_room(out.len(), at, N) {
        octets::put(out, at, v);
        return;
    }
    let end = at + N;
    octets::put(&mut out[at..end], 0, v);
}

// Stores a number of two octets.
#[tactic(auto, unfolding(octets::specs::Octets::bytes_of))]
pub fn store16(out: &mut [u8], at: usize, v: u16)
    ensures { out.new ≡ patch out.old at (bytes_of 2 v) }
{
    store(out, at, u16::to_be_bytes(v));
}

// Stores a number of four octets.
#[tactic(auto, using(octets::proofs::Words::bytes_four))]
pub fn store32(out: &mut [u8], at: usize, v: u32)
    ensures { out.new ≡ patch out.old at (bytes_of 4 v) }
{
    store(out, at, u32::to_be_bytes(v));
}

// Copies octets: up to 128 of them, as most attributes have, by blocks whose length is written out. The library's copy of any other length
// would have whoever links the archive bring `memmove` for it.
pub fn put_octets(out: &mut [u8], at: usize, src: &[u8])
    ensures { out.new ≡ patch out.old at src.now }
{
    let n = out.len();
    if n <= at {
        return;
    }
    let m = (n - at).min(src.len());
    if m < 16 {
        put_few(out, at, src, m);
    } else if m <= 128 {
        put_eight(out, at, src, m);
    } else {
        put_each(out, at, src, m);
    }
}

// Copies fewer than sixteen octets.
#[tactic(auto, unfolding(octets::specs::Octets::patch))]
fn put_few(out: &mut [u8], at: usize, src: &[u8], m: usize)
    requires { (m < 16) × (at + m ≤ length out.old) × (m ≤ length src.now) }
    ensures { out.new ≡ patch out.old at (take m src.now) }
{
    match m {
        0 => {}
        1..=2 => put_both::<1>(out, at, src, m),
        3..=4 => put_both::<2>(out, at, src, m),
        5..=8 => put_both::<4>(out, at, src, m),
        _ => put_both::<8>(out, at, src, m),
    }
}

// Copies m octets as two blocks, the second at the end, over octets of the first.
fn put_both<const N: usize>(out: &mut [u8], at: usize, src: &[u8], m: usize)
    requires { (N ≤ m) × (m ≤ 2 * N) × (at + m ≤ length out.old) × (m ≤ length src.now) }
    ensures { out.new ≡ patch out.old at (take m src.now) }
{
    put_block::<N>(out, at, src, 0);
    put_block::<N>(out, at + (m - N), src, m - N);
}

// Copies m octets one by one.
fn put_each(out: &mut [u8], at: usize, src: &[u8], m: usize)
    requires { (at + m ≤ length out.old) × (m ≤ length src.now) }
    ensures { out.new ≡ patch out.old at (take m src.now) }
{
    for i in 0..m {
        out[at + i] = src[i];
    }
}

// Copies 16 to 128 octets as eight blocks, the later ones at the end, over octets that are stored already: as many for every length, so
// that there is nothing to foresee.
fn put_eight(out: &mut [u8], at: usize, src: &[u8], m: usize)
    requires { (16 ≤ m) × (m ≤ 128) × (at + m ≤ length out.old) × (m ≤ length src.now) }
    ensures { out.new ≡ patch out.old at (take m src.now) }
{
    let last = m - 16;
    for i in 0..8 {
        let j = last.min(16 * i);
        put_block::<16>(out, at + j, src, j);
    }
}

// Copies the N octets that stand at an offset. All are read before one is stored, so that they are one load and one store.
fn put_block<const N: usize>(out: &mut [u8], to: usize, src: &[u8], at: usize)
    requires { (to + N ≤ length out.old) × (at + N ≤ length src.now) }
    ensures { out.new ≡ patch out.old to (part src.now at N) }
{
    let mut block = [0u8; N];
    block.copy_from_slice(&src[at..at + N]);
    out[to..to + N].copy_from_slice(&block);
}
