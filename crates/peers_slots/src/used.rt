// The slots in use.
ghost use Rattle.std.specs.Prelude.{◌≡◌};
ghost use Rattle.peers_slots.specs.Used.{in_use, wrong_count};

// Whether a count is above the slots or above 65,535.
#[tactic(auto, unfolding(crate::specs::Used::wrong_count))]
pub fn wrong_count(slots: usize, count: usize) -> bool
    ensures answer { result ≡ wrong_count slots count }
{
    slots < count || 65535 < count
}

// How many slots are in use: none where the count is wrong.
#[tactic(auto, unfolding(crate::specs::Used::in_use))]
pub fn in_use(slots: usize, count: usize) -> usize
    ensures answer { result ≡ in_use slots count }
{
    if wrong_count(slots, count) { 0 } else { count }
}
