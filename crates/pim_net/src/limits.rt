/// The most signals that a netlist has. Their numbers are below this, 2^20.
pub const MAX_SIGNALS: u32 = 1_048_576;

/// The most outputs that a netlist has, 2^20.
pub const MAX_OUTPUTS: u32 = 1_048_576;

/// A draft has fewer equations than this, 2^28.
pub const MAX_EQUATIONS: u32 = 268_435_456;

/// A cover has fewer columns than this, 2^28.
pub const MAX_COLUMNS: u32 = 268_435_456;

/// The most rows that a cover has, 2^28.
pub const MAX_ROWS: u32 = 268_435_456;
