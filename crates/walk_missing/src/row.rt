// One record counted.
ghost use Rattle.std.specs.Prelude.{◌≡◌};
ghost use Rattle.walk_missing.specs.Row.{counted, fresh_counters, untold as untold_rule, count_row as row_rule, count as count_rule};

use crate::turned::{Number, show};
use crate::{Counted, Counters, Missing};

// Counters before the first record.
pub fn fresh() -> Counters
    ensures answer { result ≡ fresh_counters }
{
    Counters {
        tabled: false,
        table: 0,
        dumped: false,
        dump: 0,
    }
}

// A record by its type, subtype and body: what is told of it, and the counters after it.
#[tactic(auto, unfolding(crate::specs::Row::count, crate::specs::Row::is_row, crate::specs::Row::is_peers))]
pub fn count(c: Counters, kind: u16, subtype: u16, body: &[u8]) -> Counted
    ensures answer { counted result ≡ count_rule c kind subtype body.now }
{
    match kind {
        12 => count_row::<u16>(c, body),
        13 => count_table(c, subtype, body),
        _ => untold(c),
    }
}

// Nothing is told of a record, whatever the counters are after it.
pub fn untold(c: Counters) -> Counted
    ensures { counted result ≡ untold_rule c }
{
    Counted {
        counters: c,
        missing: Missing::Nothing,
    }
}

// A record of type 13. A peer table starts both counts afresh.
#[tactic(auto, unfolding(crate::specs::Row::count, crate::specs::Row::is_row, crate::specs::Row::is_peers))]
fn count_table(c: Counters, subtype: u16, body: &[u8]) -> Counted
    ensures { counted result ≡ count_rule c 13 subtype body.now }
{
    if subtype == 1 {
        return untold(fresh());
    }
    if rib_head::layout_of(subtype).is_none() {
        return untold(c);
    }
    count_row::<u32>(c, body)
}

// A record with a sequence number.
#[tactic(auto, unfolding(crate::specs::Row::count_row, crate::specs::Turned::since))]
fn count_row<N: Number>(c: Counters, body: &[u8]) -> Counted
    ensures { counted result ≡ row_rule N.narrow c body.now }
{
    if body.len() < 4 {
        return untold(c);
    }
    let later = N::read(body);
    let missing = match N::last(c) {
        None => Missing::Nothing,
        Some(earlier) => show(later.less(earlier)),
    };
    Counted {
        counters: later.keep(c),
        missing,
    }
}
