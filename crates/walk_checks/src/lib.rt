// The body checks that the port adds: type 5 by its length alone, types 16 and 17 by the envelope of a BGP message.
#![tactic(auto)]

ghost use Rattle.std.specs.Prelude.{◌≡◌};
ghost use Rattle.walk_checks.specs.Within.{within};

mod bgp;
mod bgp4mp;
mod legacy;

pub use bgp4mp::{check_bgp4mp, is_carried, is_state_change};
pub use legacy::check_legacy;

// The least and the most that a length may be.
#[derive(Clone, Copy)]
pub struct Bounds {
    pub low: u32,
    pub high: u32,
}

impl Bounds {
    // Whether they let a length through.
    fn hold(self, n: u32) -> bool
        ensures { result ≡ within self n }
    {
        self.low <= n && n <= self.high
    }
}
