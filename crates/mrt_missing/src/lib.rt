// Missing rows across the boundary.
#![tactic(auto)]

ghost use Rattle.std.specs.Prelude.{◌≡◌, cond, Some, None};
ghost use Rattle.octets.specs.Octets.{patch};
ghost use Rattle.walk_missing.specs.Row.{told};
ghost use Rattle.mrt_missing.specs.Missing.{holds_counters, counters_in, counters_values, missing_values, missing_out};

use answer::Refusal;
use mrt_lent::{put_values, refusal};
use walk_missing::{Counters, Missing};

// A record by its type, subtype and body, with counters that are lent as four numbers. Room for what is told is asked for before
// they are moved, so that nothing is lost.
#[tactic(auto, unfolding(crate::specs::Missing::missing_out))]
pub fn mrt_missing(
    body: &[u8],
    kind: u16,
    subtype: u16,
    counters: &mut [u64],
    out: &mut [u64],
) -> u32
    ensures answer { (counters.new, (out.new, result))
        ≡ missing_out body.now kind subtype counters.old out.old }
{
    let Some(before) = lent_counters(counters) else {
        return refusal(Refusal::Beyond);
    };
    if out.len() < 3 {
        return refusal(Refusal::NoRoom);
    }
    let counted = walk_missing::count(before, kind, subtype, body);
    put_counters(counters, counted.counters);
    put_missing(out, counted.missing);
    0
}

// The counters in four lent places, where each number is within its width.
#[tactic(auto, unfolding(crate::specs::Missing::holds_counters))]
fn lent_counters(counters: &[u64]) -> Option<Counters>
    ensures { result ≡ cond (holds_counters counters.now) (Some (counters_in counters.now)) None }
{
    if counters.len() < 4 || 1 < counters[0] || 1 < counters[2] {
        return None;
    }
    let table = u32::try_from(counters[1]).ok()?;
    let dump = u16::try_from(counters[3]).ok()?;
    Some(Counters {
        tabled: counters[0] == 1,
        table,
        dumped: counters[2] == 1,
        dump,
    })
}

// The counters after a record.
fn put_counters(counters: &mut [u64], c: Counters)
    ensures { counters.new ≡ patch counters.old 0 (counters_values c) }
{
    let v = [
        u64::from(c.tabled),
        u64::from(c.table),
        u64::from(c.dumped),
        u64::from(c.dump),
    ];
    put_values(counters, &v);
}

// What is told of a record.
fn put_missing(out: &mut [u64], missing: Missing)
    ensures { out.new ≡ patch out.old 0 (missing_values (told missing)) }
{
    let v = match missing {
        Missing::Nothing => [0, 0, 0],
        Missing::Repeat => [1, 0, 1],
        Missing::Rows(rows) => [1, u64::from(rows), 0],
    };
    put_values(out, &v);
}
