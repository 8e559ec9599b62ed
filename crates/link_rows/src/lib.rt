// Links as one row of bits for each station (02, F-7): bit b of row a says that the link of a and b is up. The memory has a table of pairs yet; its masks
// of destinations are of this crate.
#![tactic(auto)]

ghost use Rattle.std.specs.Prelude.{◌≡◌, true, false, not, ◌||◌, ℕ, ◌<◌, ◌≤◌, length, get_or};
ghost use Rattle.base.specs.Lists.{all_below};
ghost use Rattle.model.specs.Calls.{bit};
ghost use Rattle.link_rows.specs.Links.{stations_in, link_row_in_range, links_in_range, LinkSet};

use crate::masks::{bit, mask_in_range, set_bit};

pub mod masks;

// The number of stations that a row names.
pub fn neighbour_count(row: u16) -> u8
    ensures { result ≡ length (stations_in row) }
{
    row.count_ones() as u8
}

// Whether the rows of those that row a names name a.
fn named_back(links: [u16; 16], n: u8, a: u8, row: u16) -> bool
    requires { (n ≤ 16) × (a < 16) }
    ensures { result ≡ all_below n (λ b. not (bit row b) || bit (get_or links b 0) a) }
{
    (0..n).all(|b| !bit(row, b) || bit(links[usize::from(b)], a))
}

// Row a: no bit from n up, not a itself, and who is named names a.
fn row_in_range(links: [u16; 16], n: u8, a: u8) -> bool
    requires { (n ≤ 16) × (a < 16) }
    ensures { result ≡ link_row_in_range n links a }
{
    let row = links[usize::from(a)];
    mask_in_range(row, n) && !bit(row, a) && named_back(links, n, a, row)
}

// The rows of the stations below n.
pub fn links_in_range(links: [u16; 16], n: u8) -> bool
    requires { n ≤ 16 }
    ensures { result ≡ links_in_range n links }
{
    (0..n).all(|a| row_in_range(links, n, a))
}

// The links with that of a and b up or down, where this is asked for.
pub fn set_link(links: [u16; 16], a: u8, b: u8, up: bool, asked: bool) -> [u16; 16]
    requires { (a < 16) × (b < 16) }
    ensures kept { asked ≡ false → result ≡ links }
    ensures set { asked ≡ true → LinkSet up links a b result }
{
    if !asked {
        return links;
    }
    let (first, second) = (usize::from(a), usize::from(b));
    let mut next = links;
    next[first] = set_bit(links[first], b, up);
    next[second] = set_bit(links[second], a, up);
    next
}
