// The MRT common header, read and written, and the record that it frames (RFC 6396, 2 and 3).
#![tactic(auto)]

mod frame;
mod kind;
mod read;
mod write;

pub use frame::{frame_of, frame_record};
pub use kind::is_known;
pub use read::read_header;
pub use write::write_header;

// The length as it stands in the header: of a type with microseconds it counts those too.
#[derive(Clone, Copy)]
pub struct WireLength(pub u32);

// The length of the body alone.
#[derive(Clone, Copy)]
pub struct StoredLength(pub u32);

#[derive(Clone, Copy)]
pub struct CommonHeader {
    pub timestamp: u32,
    pub kind: u16,
    pub subtype: u16,
    pub length: StoredLength,
    // 0 where the type has none.
    pub micros: u32,
}

// A header, and the length that stood in it.
#[derive(Clone, Copy)]
pub struct Headed {
    pub header: CommonHeader,
    pub wire: WireLength,
}

// A record: its header, and where its body starts and where it ends, in the stream.
#[derive(Clone, Copy)]
pub struct Framed {
    pub head: Headed,
    pub body: usize,
    pub end: usize,
}

// A record, and where it starts.
#[derive(Clone, Copy)]
pub struct Located {
    pub start: usize,
    pub frame: Framed,
}
