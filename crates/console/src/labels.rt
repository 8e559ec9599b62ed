// New label on numbers.
ghost use Rattle.std.specs.Prelude.{◌≡◌};
ghost use Rattle.label.specs.Label.{label, new_label_call};
ghost use Rattle.console.specs.Packed.{outcome_in};

use crate::packed;
use label::{label_of, new_label};

// New label from the own, the cached and the advertised label.
#[unsafe(no_mangle)]
pub extern "C" fn srp_new_label(
    own_s: u64,
    own_m: u32,
    own_d: u32,
    cached_s: u64,
    cached_m: u32,
    cached_d: u32,
    advertised_s: u64,
    advertised_m: u32,
    advertised_d: u32,
) -> u64
    ensures { outcome_in advertised_s result ≡ new_label_call (label own_s own_m own_d) (label cached_s cached_m cached_d) (label advertised_s advertised_m advertised_d) }
{
    let own = label_of(own_s, own_m, own_d);
    let cached = label_of(cached_s, cached_m, cached_d);
    let advertised = label_of(advertised_s, advertised_m, advertised_d);
    match new_label(own, cached, advertised) {
        Ok(l) => packed(l.m, l.d),
        Err(why) => packed(why.number(), 0),
    }
}
