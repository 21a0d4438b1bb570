// How old a route was when the record was written.
ghost use Rattle.std.specs.Prelude.{◌≡◌};
ghost use Rattle.rib_head.specs.Age.{age_of};

// The record's timestamp minus the originated time, in seconds.
pub fn age(timestamp: u32, originated: u32) -> i64
    ensures answer { result ≡ age_of timestamp originated }
{
    (timestamp as i64) - (originated as i64)
}
