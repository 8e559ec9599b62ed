// An entry of the memory in bytes, by its fields.
ghost use Rattle.std.specs.Prelude.{◌≡◌, true, List, ℕ, ◌+◌, ◌<◌, ◌≤◌, length};
ghost use Rattle.std.proofs.lemmas.List.Edits.{sets};
ghost use Rattle.codec.specs.Fields.{Field, widths, values, total, values_at, read, written, AllFit, Fits, are_widths};

use codec::{get_fields, put_fields};

// An entry of N fields. The model's entry that it stands for has a format, and is made of the values of its fields.
// The functions below are for fewer than 16 fields, so that the arrays fit the memory.
pub(crate) trait Entry<const N: usize>: Copy {
    ghost Model: { Type 0 };

    ghost model: { Self → Model };

    ghost format: { List (Field Model) };

    ghost make: { List ℕ → Model };

    // The widths of its fields, in the order of their bytes.
    const WIDTHS: [usize; N];

    ghost WIDTHS: { List ℕ };

    // The entry with these values, and the values of an entry.
    fn from_values(v: &[u64; N]) -> Self
        requires { AllFit (widths format) v.now }
        ensures { model result ≡ make v.now };

    fn values(self) -> [u64; N]
        ensures { (result ≡ values format (model self)) × Fits format (model self) };

    ghost widths_law: { (WIDTHS ≡ widths format) × (are_widths (widths format) ≡ true) };
}

// The values of the entry at a place.
pub(crate) fn get<const N: usize, E: Entry<N>>(bytes: &[u8], at: usize) -> [u64; N]
    requires { (at + total (widths E.format) ≤ length bytes.now) × (N < 16) }
    ensures { (result ≡ values_at (widths E.format) bytes.now at) × AllFit (widths E.format) result }
{
    let mut v = [0; N];
    get_fields(bytes, at, &E::WIDTHS, &mut v);
    v
}

// The entry at a place.
pub(crate) fn read<const N: usize, E: Entry<N>>(bytes: &[u8], at: usize) -> E
    requires { (at + total (widths E.format) ≤ length bytes.now) × (N < 16) }
    ensures { E.model result ≡ read E.format E.make bytes.now at }
{
    E::from_values(&get::<N, E>(bytes, at))
}

pub(crate) fn put<const N: usize, E: Entry<N>>(out: &mut [u8], at: usize, x: E)
    requires { (at + total (widths E.format) ≤ length out.old) × (N < 16) }
    ensures { (out.new ≡ sets out.old at (written E.format (E.model x))) × Fits E.format (E.model x) }
{
    put_fields(out, at, &E::WIDTHS, &x.values());
}
