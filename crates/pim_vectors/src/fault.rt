use thiserror::Error;

/// Why no further line is handed out. The number of a line is judged before its length.
#[derive(Clone, Copy, Debug, PartialEq, Eq, Error)]
pub enum LinesFault {
    /// A read failed before the next line or another fault was known. The source counted it.
    #[error("the source could not be read")]
    Fault,

    /// The line of that number, from 1, has more bytes than the longest that [`Lines::new`](crate::Lines::new) was given, without
    /// its newline and a carriage return before that.
    #[error("a line has too many bytes")]
    Long(u32),

    /// There are more lines than [`MAX_LINES`](crate::MAX_LINES). It comes in place of the line behind that many.
    #[error("there are too many lines")]
    TooMany,

    /// There are more bytes than `pim_io::MAX_INPUT`, and no line and no other fault stands before the last of those.
    #[error("there are too many bytes")]
    TooLong,
}
