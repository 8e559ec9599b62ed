// Where the parts of the memory begin, and its length (docs/LAYOUT.md, specs/Places.antt).
use formats::{AIR_BYTES, LABEL_BYTES, LINK_BYTES, RECORD_BYTES, ROW_BYTES, STATION_BYTES};

// The layout's number.
pub const VERSION: u8 = 19;

pub const SIZE_AT: usize = 1;

pub const STATIONS_AT: usize = SIZE_AT + 1;

pub const LINKS_AT: usize = STATIONS_AT + STATION_BYTES * 16;

pub const LABELS_AT: usize = LINKS_AT + LINK_BYTES * 256;

pub const ROWS_AT: usize = LABELS_AT + LABEL_BYTES * 256;

pub const RECORDS_AT: usize = ROWS_AT + ROW_BYTES * 256;

pub const AIR_AT: usize = RECORDS_AT + RECORD_BYTES * 256;

pub const PACKETS_AT: usize = AIR_AT + 1;

pub const LIMIT_AT: usize = AIR_AT + AIR_BYTES;

pub const LENGTH: usize = LIMIT_AT + 1;
