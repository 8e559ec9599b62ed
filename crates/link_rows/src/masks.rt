// Masks of stations: bit t is station t.
ghost use Rattle.std.specs.Prelude.{◌≡◌, ℕ, ◌+◌, ◌^◌, ◌<◌, ◌≤◌, ltb, eqb, if◌then◌else◌};
ghost use Rattle.model.specs.Calls.{bit};

// Whether station t is in the mask.
pub fn bit(mask: u16, t: u8) -> bool
    requires { t < 16 }
    ensures { result ≡ bit mask t }
{
    (mask >> t) & 1 == 1
}

// The mask of stations below t, with t too if yes.
pub fn marked(mask: u16, t: u8, yes: bool) -> u16
    requires { (t < 16) × (mask < 2 ^ t) }
    ensures { result ≡ mask + (if yes then 2 ^ t else 0) }
{
    if yes { mask | (1 << t) } else { mask }
}

// No bit from n up.
pub fn mask_in_range(mask: u16, n: u8) -> bool
    requires { n ≤ 16 }
    ensures { result ≡ ltb mask (2 ^ n) }
{
    u32::from(mask) < 1 << n
}

// The mask with station t in it or not.
pub fn set_bit(mask: u16, t: u8, yes: bool) -> u16
    requires { t < 16 }
    ensures { (u : ℕ) → bit result u ≡ (if eqb t u then yes else bit mask u) }
{
    if yes {
        mask | (1 << t)
    } else {
        mask & !(1 << t)
    }
}
