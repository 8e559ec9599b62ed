// The entries of the memory in bytes (docs/LAYOUT.md, "The entries"): the widths of the entries (specs/Formats.antt).
#![tactic(auto)]

use rows::ROW_LIMIT;
use validation::AIR_LIMIT;

pub mod entries;
mod entry;
pub mod meaning;
pub mod packets;
pub mod table;

pub const LABEL_BYTES: usize = 8 + 4 + 4;

pub const SUCCESSOR_BYTES: usize = 1 + LABEL_BYTES + 8;

pub const ROW_BYTES: usize = 1 + SUCCESSOR_BYTES * ROW_LIMIT as usize;

pub const RECORD_BYTES: usize = 4 + 1 + LABEL_BYTES + 1 + 1;

pub const STATION_BYTES: usize = 4 + 1 + 1 + 8;

pub const LINK_BYTES: usize = 1;

pub const PACKET_BYTES: usize = 1 + 1 + 1 + 1 + 4 + 1 + LABEL_BYTES + 1 + 2 + 8;

pub const AIR_BYTES: usize = 1 + PACKET_BYTES * AIR_LIMIT as usize;
