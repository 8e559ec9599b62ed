// Fractions, and the simplest one strictly between two others (02, F-6).
#![tactic(auto)]

ghost use Rattle.std.specs.Prelude.{◌≡◌, ◌≤◌};
ghost use Rattle.fraction.specs.Fraction.{Searched, Simplest, simplest};

// The fraction m/d.
#[derive(Clone, Copy)]
pub struct Fraction {
    pub m: u64,
    pub d: u64,
}

// The simplest fraction strictly between x and y, where y is at most 1, by a run to the left: a step takes m/d to m/(d − m), as long as y is
// at most 1, and the run's k steps are taken at once. Then 1/1 lies between the two, or x is at least 1 and a run to the right follows.
// `Searched x y` stays with x and y apart: `simplest_between` takes them so, and a struct of the two would be built anew at each call.
#[cycle(left_right)]
fn left(x: Fraction, y: Fraction) -> Fraction
    requires searched { Searched x y }
    requires m_le_d { y.m ≤ y.d }
    ensures { Simplest x y result }
{
    let k = y.d / y.m;
    let q = x.d - k * x.m;
    let d = y.d % y.m;
    if x.m < q {
        return Fraction { m: 1, d: k + 1 };
    }
    let f = right(Fraction { m: x.m, d: q }, Fraction { m: y.m, d });
    Fraction {
        m: f.m,
        d: f.d + k * f.m,
    }
}

// The simplest fraction strictly between x and y by a run to the right: a step takes m/d to (m − d)/d, as long as x is
// at least 1, and the run's k steps are taken at once. Then 1/1 lies between the two, or y is at most 1 and a run to the left follows.
#[cycle(left_right)]
fn right(x: Fraction, y: Fraction) -> Fraction
    requires { Searched x y }
    ensures { Simplest x y result }
{
    let k = x.m / x.d;
    let m = y.m - k * y.d;
    let p = x.m % x.d;
    if y.d < m {
        return Fraction { m: k + 1, d: 1 };
    }
    let f = left(Fraction { m: p, d: x.d }, Fraction { m, d: y.d });
    Fraction {
        m: f.m + k * f.d,
        d: f.d,
    }
}

// The simplest fraction strictly between x and y, where y is at most 1.
pub fn simplest_between(x: Fraction, y: Fraction) -> Fraction
    requires searched { Searched x y }
    requires m_le_d { y.m ≤ y.d }
    ensures { result ≡ simplest x y }
{
    left(x, y)
}
