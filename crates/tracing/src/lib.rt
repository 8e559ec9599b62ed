// The tracer's walk, hop by hop (01, "Trace").
#![tactic(auto)]

ghost use Rattle.std.specs.Prelude.{◌≡◌, ◌+◌, ◌<◌, ◌≤◌, IfOk, get_or};
ghost use Rattle.model.specs.Memory.{Network, row_at};
ghost use Rattle.model.specs.Calls.{next_of, hop_limit};
ghost use Rattle.rows.specs.View.{row_of};
ghost use Rattle.tracing.specs.Tracing.{GoesOn, number, tells, will_tell};

use rows::Row;

// The walk so far: the station it is at, and its hops.
#[derive(Clone, Copy)]
pub struct Walk {
    pub at: u8,
    pub hops: u8,
}

// How a walk ends, under the number that is told: at its destination, at an empty row, or with its hops used up.
#[derive(Clone, Copy, Debug, PartialEq, Eq)]
pub enum End {
    Arrived = 131,
    EmptyRow = 132,
    HopsUsedUp = 133,
}

impl End {
    // Its number.
    pub fn number(self) -> u32
        ensures { result ≡ number self }
    {
        self as u32
    }
}

// The tracer's choice: the row's first entry.
fn next_hop(row: Row) -> u8
    requires { 0 < row.count }
    ensures { (result ≡ next_of (row_of row)) × (result ≡ get_or row.stations 0 0) }
{
    row.stations[0]
}

// The walk to t goes on where it is, with this row, or ends: at t, at an empty row, or where the hops are used up.
pub fn advance(walk: Walk, row: Row, t: u8, limit: u8) -> Result<Walk, End>
    requires { (walk.hops ≤ limit) × (limit < 16) }
    ensures tells { (net : Network) → hop_limit net ≡ limit → row_at net walk.at t ≡ row_of row → tells net t walk result ≡ will_tell net t walk }
    ensures hop { IfOk result (λ next. GoesOn walk row limit next) }
{
    if walk.at == t {
        return Err(End::Arrived);
    }
    if row.count == 0 {
        return Err(End::EmptyRow);
    }
    if limit <= walk.hops {
        return Err(End::HopsUsedUp);
    }
    Ok(Walk {
        at: next_hop(row),
        hops: walk.hops + 1,
    })
}
