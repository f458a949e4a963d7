/// What comes of comparing a program with a netlist on all vectors.
#[derive(Clone, Copy, Debug, PartialEq, Eq)]
pub enum Verdict {
    /// The outputs are the netlist's for every vector.
    Equal,

    /// The vector of this number is the least for which they are not, and this is the first output that differs there.
    Differs { vector: u32, output: u32 },
}
