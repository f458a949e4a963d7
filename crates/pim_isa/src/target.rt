/// The family of logic in memory that a program is for.
#[derive(Clone, Copy, Debug, PartialEq, Eq)]
pub enum Target {
    /// NOR into cells that were set to one before: `init`, `not` and `nor`.
    Magic,

    /// The majority of three with one operand complemented: `rm3`.
    Plim,
}

/// What the cells hold at the start, other than the inputs.
#[derive(Clone, Copy, Debug, PartialEq, Eq)]
pub enum Fill {
    Zeros,
    Ones,
}
