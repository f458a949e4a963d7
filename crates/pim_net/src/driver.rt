/// What drives a signal.
#[derive(Clone, Copy, Debug, PartialEq, Eq)]
pub(crate) enum Driver {
    /// Nothing.
    Nobody,
    /// The input of this number.
    Input(u32),
    /// The cover of the equation of this number.
    Cover(u32),
}
