/// How far the search has come with an equation.
#[derive(Clone, Copy, Debug, PartialEq, Eq)]
pub(crate) enum Mark {
    /// It was not come to.
    New,
    /// It is on the trail.
    Open,
    /// It has this depth.
    Deep(u32),
}

/// An equation on the trail of the search.
#[derive(Clone, Copy, Debug, PartialEq, Eq)]
pub(crate) struct Frame {
    /// The number of the equation.
    pub(crate) equation: u32,
    /// How many of its columns have a depth so far.
    pub(crate) column: u32,
    /// The greatest depth of those columns, 0 where there is none.
    pub(crate) depth: u32,
}

/// What the search meets next in an equation.
#[derive(Clone, Copy, Debug, PartialEq, Eq)]
pub(crate) enum Step {
    /// All columns have a depth.
    Done,
    /// The next column has this depth.
    Past(u32),
    /// The next column is the signal of this equation, which was not come to.
    Into(u32),
    /// The next column is the signal of this equation, which is on the trail.
    Round(u32),
}
