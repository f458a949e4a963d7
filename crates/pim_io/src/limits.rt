/// The most bytes of a name.
pub const MAX_NAME: usize = 4_096;

/// The most bytes of an input.
pub const MAX_INPUT: u32 = 67_108_864;

/// The most bytes of a program file, and of any file that a reader takes whole.
pub const MAX_PROGRAM: u32 = 536_870_912;
