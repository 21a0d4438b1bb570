// What decides how a RIB body of TABLE_DUMP_V2 is read (RFC 6396, 4.3.2; RFC 8050, 4): its subtype, the head, the prefix bits.
#![tactic(auto)]

mod head;
mod prefix;
mod times;

pub use head::{check_rib, count_at, has_path, layout_of, path_size, prefix_size};
pub use prefix::clear_after;
pub use times::age;

// What a subtype that is carried decides: the most prefix bits, how many octets a path number takes.
#[derive(Clone, Copy)]
pub struct Layout {
    pub most: u8,
    pub path: usize,
}
