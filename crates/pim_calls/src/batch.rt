//! Vectors that are executed together.
ghost use Rattle.std.specs.Prelude.{◌≡◌, length};

use crate::and::and_draft;
use crate::imply::imply_draft;
use pim_batch::{Batch, Executor, ImplyBatch};
use pim_imply::ImplyProgram;
use pim_io::MemSink;
use pim_isa::{Fill, Program};
use pim_vectors::vector_fits;
use std::process::Abort;
use std::test::Fail;

/// Packs a vector of two bits.
fn pack(rt: &impl Abort, batch: &mut Batch, line: &[u8])
    requires { length batch.old.program.inputs ≡ 2 }
    ensures { length batch.new.program.inputs ≡ 2 }
{
    assert!(rt; vector_fits(line, 2));
    assert!(rt; !batch.is_full());
    batch.push(line);
}

#[test]
fn a_line_is_written_for_each_vector(rt: HostRuntime) -> Result<(), Fail> {
    let program = Program::new(and_draft(rt.alloc())?)?;
    let mut batch = Batch::new(rt.alloc(), &program, Fill::Zeros)?;
    pack(&rt, &mut batch, b"00");
    pack(&rt, &mut batch, b"01");
    pack(&rt, &mut batch, b"10");
    pack(&rt, &mut batch, b"11");
    // a second call of the sink would fail
    let mut sink = MemSink::new(rt.alloc(), 8, 8, &[1])?;
    batch.flush(&mut sink)?;
    assert_eq!(rt; sink.bytes(), b"0\n0\n0\n1\n".as_slice());
    Ok(())
}

/// Packs a vector of two bits.
fn pack_imply(rt: &impl Abort, batch: &mut ImplyBatch, line: &[u8])
    requires { length batch.old.program.inputs ≡ 2 }
    ensures { length batch.new.program.inputs ≡ 2 }
{
    assert!(rt; vector_fits(line, 2));
    assert!(rt; !batch.is_full());
    batch.push(line);
}

#[test]
fn an_imply_program_runs_on_each_vector(rt: HostRuntime) -> Result<(), Fail> {
    let program = ImplyProgram::new(imply_draft(rt.alloc())?)?;
    let mut batch = ImplyBatch::new(rt.alloc(), &program, Fill::Ones)?;
    pack_imply(&rt, &mut batch, b"11");
    pack_imply(&rt, &mut batch, b"01");
    pack_imply(&rt, &mut batch, b"10");
    let mut sink = MemSink::new(rt.alloc(), 6, 6, &[1])?;
    batch.flush(&mut sink)?;
    assert_eq!(rt; sink.bytes(), b"1\n0\n0\n".as_slice());
    Ok(())
}
