/// Which count of a netlist passes its limit.
#[derive(Clone, Copy, Debug, PartialEq, Eq)]
pub enum Kind {
    /// More than `MAX_SIGNALS` signals.
    Signals,
    /// More than `MAX_OUTPUTS` outputs.
    Outputs,
    /// A name of more than `MAX_NAME` bytes.
    Name,
}
