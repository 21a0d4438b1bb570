// What a subtype decides, and whether the head of a body can be read.
ghost use Rattle.std.specs.Prelude.{◌≡◌, ◌≤◌};
ghost use Rattle.answer.specs.Refusal.{outcome_number};
ghost use Rattle.rib_head.specs.Layout.{layout_of, pathed, path_size, prefix_size};
ghost use Rattle.rib_head.specs.Head.{count_at, readable, check_rib};

use crate::Layout;
use answer::Refusal;

// What a subtype decides, where it is carried.
pub fn layout_of(subtype: u16) -> Option<Layout>
    ensures answer { result ≡ layout_of subtype }
{
    let most = match subtype {
        2 | 3 | 8 | 9 => 32,
        4 | 5 | 10 | 11 => 128,
        _ => return None,
    };
    Some(Layout {
        most,
        path: path_size(subtype),
    })
}

// How many octets the path number of an entry takes.
#[tactic(auto, unfolding(crate::specs::Layout::path_size))]
pub fn path_size(subtype: u16) -> usize
    ensures answer { result ≡ path_size subtype }
    ensures few { result ≤ 4 }
{
    if has_path(subtype) { 4 } else { 0 }
}

// Whether an entry has a path number: those of subtypes 8 to 11 do (RFC 8050, 4).
#[tactic(auto, unfolding(crate::specs::Layout::pathed))]
pub fn has_path(subtype: u16) -> bool
    ensures answer { result ≡ pathed subtype }
{
    matches!(subtype, 8..=11)
}

// Whether a body is a RIB body with a readable head.
#[tactic(auto, unfolding(crate::specs::Head::check_rib))]
pub fn check_rib(body: &[u8], subtype: u16) -> Result<(), Refusal>
    ensures answer { outcome_number result ≡ check_rib body.now subtype }
{
    let l = layout_of(subtype).ok_or(Refusal::OtherSubtype)?;
    if !is_readable(body, l.most) {
        return Err(Refusal::BodyNotMet);
    }
    Ok(())
}

// Whether the head fits in the body, with at most so many prefix bits.
#[tactic(auto, unfolding(crate::specs::Head::readable, crate::specs::Head::entries_at, crate::specs::Head::bits_of))]
fn is_readable(body: &[u8], most: u8) -> bool
    ensures { result ≡ readable most body.now }
{
    let bits = octets::octet(body, 4);
    let n = body.len();
    bits <= most && 7 <= n && prefix_size(bits) <= n - 7
}

// Where the entry count of a body stands.
#[tactic(auto, unfolding(crate::specs::Head::count_at, crate::specs::Head::bits_of))]
pub fn count_at(body: &[u8]) -> usize
    ensures answer { result ≡ count_at body.now }
    ensures few { result ≤ 37 }
{
    5 + prefix_size(octets::octet(body, 4))
}

// How many octets hold so many bits.
#[tactic(auto, unfolding(crate::specs::Layout::prefix_size))]
pub fn prefix_size(bits: u8) -> usize
    ensures answer { result ≡ prefix_size bits }
    ensures few { result ≤ 32 }
{
    (usize::from(bits) + 7) / 8
}
