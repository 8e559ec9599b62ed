// Links. The bounds of n and a stand in each contract: the pages name these functions with these parameters.
ghost use Rattle.std.specs.Prelude.{◌≡◌, not, ◌&&◌, ◌<◌, ◌≤◌, eqb, length};
ghost use Rattle.base.specs.Lists.{below};
ghost use Rattle.model.specs.Memory.{link_in};

use crate::places::pair_place;

// Whether a and b are linked, where their place says so.
pub fn joined(a: u8, b: u8, up: bool) -> bool
    ensures { result ≡ not (eqb a b) && up }
{
    (a != b) & up
}

// Whether the link of a and b is up. The links are lent, so that a loop over stations copies no table.
pub(crate) fn linked(links: &[bool; 256], a: u8, b: u8) -> bool
    requires { (a < 16) × (b < 16) }
    ensures { result ≡ link_in links.now a b }
{
    joined(a, b, links[pair_place(a, b)])
}

// The same of links by value.
pub fn link_up(links: [bool; 256], a: u8, b: u8) -> bool
    requires { (a < 16) × (b < 16) }
    ensures { result ≡ link_in links a b }
{
    linked(&links, a, b)
}

// The number of a's up neighbours.
pub fn neighbour_count(links: [bool; 256], n: u8, a: u8) -> u8
    requires { (n ≤ 16) × (a < 16) }
    ensures { result ≡ length (below n (link_in links a)) }
{
    // A sum: it compiles to no branch for each station. A filter has one.
    let mut count = 0;
    for b in 0..n {
        count += u8::from(linked(&links, a, b));
    }
    count
}
