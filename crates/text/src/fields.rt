// Decimal fields in a lent array. Not by Display: there is no heap for a String, and the width of a field is in each contract.
ghost use Rattle.std.specs.Prelude.{◌+◌, ◌*◌, ◌%◌, ◌≤◌, ◌<◌, length};
ghost use mathlib.Core.List.{[], ◌∷◌, flat_map};
ghost use Rattle.text.specs.Text.{decimal, field};
ghost use Rattle.text.specs.TextContracts.{PutsAt};

use codec::put_bytes;

// The last digit of a number.
fn put_digit(out: &mut [u8], at: usize, value: u64) -> usize
    requires { at < length out.old }
    ensures { PutsAt out.old at ((48 + value % 10) ∷ []) result out.new }
{
    out[at] = b'0' + (value % 10) as u8;
    at + 1
}

// A number of at most two digits.
fn put_two(out: &mut [u8], at: usize, value: u64) -> usize
    requires { (at + 2 ≤ length out.old) × (value < 100) }
    ensures puts_at { PutsAt out.old at (decimal value) result out.new }
    ensures upper_bound { result ≤ at + 2 }
{
    if value < 10 {
        return put_digit(out, at, value);
    }
    let end = put_digit(out, at, value / 10);
    put_digit(out, end, value)
}

// A number of any length.
fn put_many(out: &mut [u8], at: usize, value: u64) -> usize
    requires { at + 20 ≤ length out.old }
    ensures puts_at { PutsAt out.old at (decimal value) result out.new }
    ensures upper_bound { result ≤ at + 20 }
{
    let mut digits = [0u8; 20];
    let count = io::decimal(value, &mut digits);
    put_bytes(out, at, &digits[..count]);
    at + count
}

// A number's decimal digits. Most numbers have few, which are put one by one.
pub fn put_decimal(out: &mut [u8], at: usize, value: u64) -> usize
    requires { at + 20 ≤ length out.old }
    ensures puts_at { PutsAt out.old at (decimal value) result out.new }
    ensures upper_bound { result ≤ at + 20 }
{
    if value < 100 {
        return put_two(out, at, value);
    }
    if value < 10000 {
        let tens = value / 10;
        let first = put_two(out, at, tens / 10);
        let second = put_digit(out, first, tens);
        return put_digit(out, second, value);
    }
    put_many(out, at, value)
}

// A space and a number.
pub fn put_field(out: &mut [u8], at: usize, value: u64) -> usize
    requires { at + 21 ≤ length out.old }
    ensures puts_at { PutsAt out.old at (field value) result out.new }
    ensures upper_bound { result ≤ at + 21 }
{
    out[at] = b' ';
    put_decimal(out, at + 1, value)
}

// A field for each number.
pub fn put_fields(out: &mut [u8], at: usize, values: &[u64]) -> usize
    requires { at + 21 * length values.now ≤ length out.old }
    ensures puts_at { PutsAt out.old at (flat_map field values.now) result out.new }
    ensures upper_bound { result ≤ at + 21 * length values.now }
{
    let mut end = at;
    for value in values {
        end = put_field(out, end, *value);
    }
    end
}
