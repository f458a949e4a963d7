//! Lifetimes, and whether the NORs are a tree.

use crate::and::and_draft;
use pim_isa::Program;
use pim_life::{End, Life, Start, explain_tree, lives, nor_graph};
use std::test::Fail;

/// A life.
fn life(cell: u32, start: Start, end: End) -> Life {
    Life { cell, start, end }
}

#[test]
fn lists_lives(rt: HostRuntime) -> Result<(), Fail> {
    let program = Program::new(and_draft(rt.alloc())?)?;
    let lives = lives(rt.alloc(), &program)?;
    assert_eq!(rt; lives.len(), 8);
    assert_eq!(rt; lives[0], life(0, Start::Load, End::Read(2)));
    assert_eq!(rt; lives[1], life(1, Start::Load, End::Read(1)));
    assert_eq!(rt; lives[2], life(2, Start::At(0), End::Unread));
    assert_eq!(rt; lives[3], life(2, Start::At(1), End::Read(3)));
    assert_eq!(rt; lives[6], life(4, Start::At(0), End::Unread));
    assert_eq!(rt; lives[7], life(4, Start::At(3), End::Output));
    Ok(())
}

#[test]
fn finds_a_tree(rt: HostRuntime) -> Result<(), Fail> {
    let program = Program::new(and_draft(rt.alloc())?)?;
    let graph = nor_graph(rt.alloc(), &program)?;
    assert_eq!(rt; graph.len(), 3);
    assert_eq!(rt; graph.roots().len(), 1);
    let text = explain_tree(rt.alloc(), &program)?;
    assert!(rt;
        text.as_slice()
            .ends_with(b"cells 5 cycles 4\ntree yes gates 3 cu 3 peak 3 own 3\n")
    );
    Ok(())
}
