#![tactic(auto)]

ghost use Rattle.std.specs.Prelude.{◌≡◌, ◌-◌};
ghost use Rattle.model.specs.Walks.{LoopFree};

// The most hops that a walk can have among n stations, and demand 3 (specs/Walks.antt).
pub fn most_hops(n: u8) -> u8
    ensures { (result ≡ n - 1) × LoopFree }
{
    n.saturating_sub(1)
}
