// For C and Rust: the functions of `mrt_peers_read` that they call, under their own names. Each promises the same.
#![tactic(auto)]

ghost use Rattle.std.specs.Prelude.{◌≡◌};
ghost use Rattle.peers_table.specs.Table.{check_peers};
ghost use Rattle.mrt_peers_read.specs.Tables.{table_out};
ghost use Rattle.peers_read.specs.Load.{load_peers};
ghost use Rattle.mrt_peers_read.specs.Load.{load_out};

use peers_entry::Peer;

// The head of a peer table whose body holds every declared peer.
#[unsafe(no_mangle)]
pub extern "C" fn mrt_check_peers(body: &[u8], out: &mut [u64]) -> u32
    ensures answer { (out.new, result) ≡ table_out out.old (check_peers body.now) }
{
    mrt_peers_read::mrt_check_peers(body, out)
}

// The peers of a body in the first slots.
#[unsafe(no_mangle)]
pub extern "C" fn mrt_load_peers(body: &[u8], slots: &mut [Peer]) -> u32
    ensures answer { (slots.new, result) ≡ load_out (load_peers body.now slots.old) }
{
    mrt_peers_read::mrt_load_peers(body, slots)
}
