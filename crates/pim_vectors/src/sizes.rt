/// How many bytes the next line has: those of its text, and all with its end.
#[derive(Clone, Copy, Debug)]
pub(crate) struct Sizes {
    pub(crate) text: usize,
    pub(crate) whole: usize,
}
