// Progress none (document 01, Record 5): what load and a new response leave, and what the steps of an update begin from.
ghost use Rattle.std.specs.Prelude.{◌≡◌, ◌≤◌, length};
ghost use Rattle.step_order.specs.Steps.{rust_order};
ghost use Rattle.heading_format.specs.Heading.{idle};

use heading_format::{Progress, State};

// How many steps an update of k blocks has (Record 4).
pub fn step_count(k: u64) -> u64
    requires { k ≤ 8 }
    ensures { result ≡ length (rust_order k) }
{
    (k + 1) * (k + 2) * (k + 3) / 6
}

// No update: nothing is done, every step is left.
pub fn idle(k: u64) -> Progress
    requires { k ≤ 8 }
    ensures { result ≡ idle k }
{
    heading_format::undone(State::Idle, step_count(k))
}
