// Labels: their range, their order and New label (01, "Labels"). A label may be out of range, as New label is asked of any numbers (`new_label`), so that
// `in_range` stands where it is needed.
#![tactic(auto)]

ghost use Rattle.std.specs.Prelude.{◌≡◌, true, ◌+◌, ◌*◌, ◌≤◌, Err};
ghost use Rattle.fraction.specs.Fraction.{◌⊏◌};
ghost use Rattle.label.specs.Label.{label, is_unassigned, in_range, above, fraction_of, fitting, next, split, SplitRule, new_label, new_label_call, outcome, gave};

use fraction::{Fraction, simplest_between};

// A destination's sequence number.
#[derive(Clone, Copy, PartialEq, Eq)]
pub struct SequenceNumber(pub u64);

// The label (s, m/d).
#[derive(Clone, Copy, PartialEq, Eq)]
pub struct Label {
    pub s: SequenceNumber,
    pub m: u32,
    pub d: u32,
}

// Why New label takes no label.
#[derive(Clone, Copy, Debug, PartialEq, Eq)]
pub enum NotTaken {
    // A label is out of range.
    OutOfRange = 1,
    // The own label isn't above the advertised one.
    OwnNotAbove = 112,
    // The cached label isn't above the advertised one.
    CachedNotAbove = 113,
    // The denominator doesn't fit 32 bits.
    Overflow = 114,
}

impl NotTaken {
    // 01's number for it.
    pub fn number(self) -> u32
        ensures { outcome (Err self) ≡ gave result }
    {
        self as u32
    }
}

// Unassigned.
pub const UNASSIGNED: Label = Label {
    s: SequenceNumber(0),
    m: 1,
    d: 1,
};

// The label (s, m/d).
pub fn label_of(s: u64, m: u32, d: u32) -> Label
    ensures { result ≡ label s m d }
{
    Label {
        s: SequenceNumber(s),
        m,
        d,
    }
}

// Whether l is unassigned.
#[tactic(auto, unfolding(crate::specs::Label::is_unassigned))]
pub fn is_unassigned(l: Label) -> bool
    ensures { result ≡ is_unassigned l }
{
    l == UNASSIGNED
}

// Whether l is unassigned, or has s > 0 and m < d.
#[tactic(auto, unfolding(crate::specs::Label::in_range, crate::specs::Label::is_unassigned))]
pub fn in_range(l: Label) -> bool
    ensures { result ≡ in_range l }
{
    is_unassigned(l) || 0 < l.s.0 && l.m < l.d
}

// The whole sum.
pub fn sum(a: u32, b: u32) -> u64
    ensures { result ≡ a + b }
{
    u64::from(a) + u64::from(b)
}

// The whole product.
fn product(a: u32, b: u32) -> u64
    ensures { result ≡ a * b }
{
    u64::from(a) * u64::from(b)
}

// Whether x is above y. By hand: a higher s is a lower label, and 2/4 beside 1/2 is neither, so that no order of the fields says it.
#[tactic(auto, unfolding(crate::specs::Label::above))]
pub fn is_above(x: Label, y: Label) -> bool
    ensures { result ≡ above x y }
{
    x.s.0 < y.s.0 || x.s == y.s && product(y.m, x.d) < product(x.m, y.d)
}

impl From<Label> for Fraction {
    ghost from_gives = { λ l f. f ≡ fraction_of l };

    fn from(l: Label) -> Fraction {
        Fraction {
            m: u64::from(l.m),
            d: u64::from(l.d),
        }
    }
}

// The label (s, m/d), if its denominator fits 32 bits.
#[tactic(auto, unfolding(crate::specs::Label::fitting))]
fn fitting(s: SequenceNumber, m: u64, d: u64) -> Result<Label, NotTaken>
    requires { m ≤ d }
    ensures { outcome result ≡ fitting s.0 m d }
{
    let d = u32::try_from(d).map_err(|_| NotTaken::Overflow)?;
    Ok(Label { s, m: m as u32, d })
}

// The label after v, with (m+1)/(d+1).
#[tactic(auto, unfolding(crate::specs::Label::next), using(crate::proofs::Range::range_fraction))]
fn next_of(v: Label) -> Result<Label, NotTaken>
    requires { in_range v ≡ true }
    ensures { outcome result ≡ next v }
{
    fitting(v.s, sum(v.m, 1), sum(v.d, 1))
}

// The split of c and v.
#[tactic(auto, unfolding(crate::specs::Label::split))]
fn split_of(c: Label, v: Label) -> Result<Label, NotTaken>
    requires { (in_range c ≡ true) × (fraction_of v ⊏ fraction_of c) }
    ensures result_value { outcome result ≡ split c v }
    ensures rule { SplitRule c v (outcome result) }
{
    let f = simplest_between(Fraction::from(v), Fraction::from(c));
    fitting(v.s, f.m, f.d)
}

// New label, of labels in range.
#[tactic(auto, unfolding(crate::specs::Label::new_label_by))]
pub fn new_label_in_range(a: Label, c: Label, v: Label) -> Result<Label, NotTaken>
    requires { (in_range c ≡ true) × (in_range v ≡ true) }
    ensures { outcome result ≡ new_label a c v }
{
    if !is_above(a, v) {
        return Err(NotTaken::OwnNotAbove);
    }
    if !is_above(c, v) {
        return Err(NotTaken::CachedNotAbove);
    }
    if a.s.0 < v.s.0 {
        if c.s.0 < v.s.0 {
            return next_of(v);
        }
    } else if is_above(c, a) {
        return Ok(a);
    }
    split_of(c, v)
}

// New label from the own label a, the cached label c and the advertised label v.
#[tactic(auto, unfolding(crate::specs::Label::new_label_call))]
pub fn new_label(a: Label, c: Label, v: Label) -> Result<Label, NotTaken>
    ensures { outcome result ≡ new_label_call a c v }
{
    if !in_range(a) || !in_range(c) || !in_range(v) {
        return Err(NotTaken::OutOfRange);
    }
    new_label_in_range(a, c, v)
}
