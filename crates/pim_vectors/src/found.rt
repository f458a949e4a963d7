/// What stands next among the bytes that were taken: a line of that many bytes before its newline, or a last piece of that many
/// bytes, of which there may be none.
#[derive(Clone, Copy, Debug)]
pub(crate) enum Found {
    Line(usize),
    Rest(usize),
}
