// Places in the tables.
ghost use Rattle.std.specs.Prelude.{◌≡◌};
ghost use Rattle.model.specs.Memory.{place, pair_place};

// Where what station i holds for station t stands.
pub fn place(i: u8, t: u8) -> usize
    ensures { result ≡ place i t }
{
    16 * (i as usize) + (t as usize)
}

// Where the link of a and b stands: the lower station first.
pub fn pair_place(a: u8, b: u8) -> usize
    ensures { result ≡ pair_place a b }
{
    if a < b {
        return place(a, b);
    }
    place(b, a)
}
