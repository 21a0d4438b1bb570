// What crosses the boundary to C and Rust: a call returns a refusal's number, 0 where it has served, and hands its values out
// in the places that the caller lends; beside the number a writer returns how many octets it has written, and a call that hands
// out rows how many.
#![tactic(auto)]

mod hand;
mod lent;
mod record;
mod turns;
mod writer;

pub use hand::{hand_out, mark_of, none_handed, put_values, refusal, sixteen};
pub use lent::lent_walk;
pub use record::record_values;
pub use turns::{Source, Taken, hand_rows};
pub use writer::wrote_of;

// What a writer returns: no octets where it has refused.
#[repr(C)]
#[derive(Clone, Copy)]
pub struct Wrote {
    pub octets: u64,
    pub refusal: u32,
}

// What a call returns that hands out rows of values: how many, and none where it has refused.
#[repr(C)]
#[derive(Clone, Copy)]
pub struct Handed {
    pub count: u64,
    pub refusal: u32,
}
