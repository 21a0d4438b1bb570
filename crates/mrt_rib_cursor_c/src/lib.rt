// For C and Rust: the functions of `mrt_rib_cursor` that they call, under their own names. Each promises the same.
#![tactic(auto)]

ghost use Rattle.std.specs.Prelude.{◌≡◌};
ghost use Rattle.rib_entries.specs.Entry.{entry_of, first_of, next_of};
ghost use Rattle.mrt_rib_cursor.specs.Entries.{entry_out, placed_out, step_out};

// The entry i of a RIB body.
#[unsafe(no_mangle)]
pub extern "C" fn mrt_rib_entry(body: &[u8], subtype: u16, i: usize, out: &mut [u64]) -> u32
    ensures answer { (out.new, result) ≡ entry_out out.old (entry_of body.now subtype i) }
{
    mrt_rib_cursor::mrt_rib_entry(body, subtype, i, out)
}

// The cursor at the first entry of a RIB body.
#[unsafe(no_mangle)]
pub extern "C" fn mrt_rib_first(body: &[u8], subtype: u16, out: &mut [u64]) -> u32
    ensures answer { (out.new, result) ≡ placed_out out.old (first_of body.now subtype) }
{
    mrt_rib_cursor::mrt_rib_first(body, subtype, out)
}

// The entry at a cursor, and the cursor after it.
#[unsafe(no_mangle)]
pub extern "C" fn mrt_rib_next(
    body: &[u8],
    subtype: u16,
    at: usize,
    left: u16,
    out: &mut [u64],
) -> u32
    ensures answer { (out.new, result)
        ≡ step_out out.old (next_of body.now subtype (record { at = at; left = left })) }
{
    mrt_rib_cursor::mrt_rib_next(body, subtype, at, left, out)
}
