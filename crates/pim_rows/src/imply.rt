//! `imply` and `implyrun`: small netlists, their programs on vectors, what is refused, and sources and sinks that fail.
mod faults;
mod outside;
mod rows;

/// The program of a two-input AND.
pub const IMPLIED_AND: &[u8] =
    b"imply 1\ncells 4\ninput 0 i0\ninput 1 i1\noutput 3 o0\ncycles 5\nfalse 2\nimp 1 2\nimp 0 2\nfalse 3\nimp 2 3\nend\n";

/// That of the exclusive or of two inputs.
const IMPLIED_XOR: &[u8] =
    b"imply 1\ncells 5\ninput 0 a\ninput 1 b\noutput 2 f\ncycles 13\nfalse 2\nimp 1 2\nfalse 3\nimp 0 3\nimp 2 3\nfalse 2\nimp 0 2\nfalse 4\nimp 2 4\nimp 1 4\nfalse 2\nimp 3 2\nimp 4 2\nend\n";

/// The words that run a program, where all other cells hold zeros.
pub const ZEROS: &[&str] = &["implyrun", "program", "--fill", "zeros"];

/// The same with ones.
const ONES: &[&str] = &["implyrun", "program", "--fill", "ones"];
