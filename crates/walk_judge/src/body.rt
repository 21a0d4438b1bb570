// The body check by type.
ghost use Rattle.std.specs.Prelude.{cond, ◌≡◌};
ghost use Rattle.answer.specs.Refusal.{number_of, outcome_number};
ghost use Rattle.header.specs.Kind.{known};
ghost use Rattle.walk_judge.specs.Body.{check, table_dump_v2};

use answer::Refusal;
use header::StoredLength;

// The body of a record, by the record's type, which is a number of the stream, its subtype and its stored length.
#[tactic(auto, unfolding(crate::specs::Body::check, crate::specs::Body::check_of, crate::specs::Body::carried, header::specs::Kind::known))]
pub fn check_body(body: &[u8], kind: u16, subtype: u16, stored: StoredLength) -> Result<(), Refusal>
    ensures answer { outcome_number result ≡ check kind subtype stored.0 body.now }
{
    match kind {
        5 => walk_checks::check_legacy(subtype, stored),
        12 => dump_layout::check_dump(body, subtype),
        13 => check_table_dump_v2(body, subtype),
        16 | 17 => walk_checks::check_bgp4mp(body, subtype),
        _ => Err(refuse_type(kind)),
    }
}

// Why a type is not carried.
fn refuse_type(kind: u16) -> Refusal
    ensures { number_of result ≡ cond (known kind) 5 2 }
{
    if header::is_known(kind) {
        Refusal::NotCarried
    } else {
        Refusal::UnknownType
    }
}

// Type 13: a peer table that holds its peers, or a RIB with a readable head.
#[tactic(auto, unfolding(crate::specs::Body::table_dump_v2))]
fn check_table_dump_v2(body: &[u8], subtype: u16) -> Result<(), Refusal>
    ensures { outcome_number result ≡ table_dump_v2 subtype body.now }
{
    if subtype != 1 {
        return rib_head::check_rib(body, subtype);
    }
    peers_table::check_peers(body)?;
    Ok(())
}
