/// Two literals in rising order, by their numbers: the key of an AND node.
#[derive(Clone, Copy, Debug, PartialEq, Eq, Hash, Drop)]
pub(crate) struct Pair {
    pub(crate) low: u32,
    pub(crate) high: u32,
}
