use crate::Cover;

/// A signal equals a cover of signals.
#[derive(Debug, Drop)]
pub struct Equation {
    /// The signal that is driven.
    pub sig: u32,
    /// What it equals.
    pub cover: Cover,
}

/// An output: a signal, or its complement.
#[derive(Clone, Copy, Debug, PartialEq, Eq)]
pub struct OutRef {
    /// The signal that is read.
    pub sig: u32,
    /// Whether its complement is put out.
    pub neg: bool,
}
