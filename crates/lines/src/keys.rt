// The fixed bytes of the lines of texts.

// The first line of a net text.
pub const NET_OPENING: &[u8] = b"net=1\n";

// The first line of a case text.
pub const CASE_OPENING: &[u8] = b"case=1\n";

// What stands before the order of the wheel.
pub const WHEEL: &[u8] = b"wheel=";

// What stands before the number of styles.
pub const STYLES: &[u8] = b"styles=";

// What stands before a style name.
pub const STYLE: &[u8] = b"style=";

// What stands before the number of places.
pub const PLACES: &[u8] = b"places=";

// What stands before a place.
pub const PLACE: &[u8] = b"place=";

// What stands before a run.
pub const RUN: &[u8] = b"run=";

// The last line of a net text.
pub const NET_END: &[u8] = b"end=net\n";

// The last line of a case text.
pub const CASE_END: &[u8] = b"end=case\n";
