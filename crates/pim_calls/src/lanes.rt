//! Rows side by side, and the kernels.

use crate::and::and_draft;
use pim_isa::{Fill, Ins, Instr, Operand, Program};
use pim_lanes::{Bank, nor1_into, nor2_into, ones_into, rm3_into};
use std::test::Fail;

/// Words with no pattern of their own.
fn words(seed: u64) -> [u64; 20] {
    let mut words = [0; 20];
    let mut last = seed;
    for word in words.iter_mut() {
        last = last
            .wrapping_mul(6_364_136_223_846_793_005)
            .wrapping_add(1_442_695_040_888_963_407);
        *word = last ^ (last >> 29);
    }
    words
}

/// Whether a bit is one.
fn bit(word: u64, place: u32) -> bool {
    word.wrapping_shr(place) & 1 == 1
}

#[test]
fn kernels_follow_the_rules_at_every_length(rt: HostRuntime) {
    let t = words(1);
    let a = words(2);
    let b = words(3);
    for n in 0..21usize {
        let mut ones = t;
        let mut one = t;
        let mut two = t;
        let mut most = t;
        ones_into(&mut ones[..n]);
        nor1_into(&mut one[..n], &a[..n]);
        nor2_into(&mut two[..n], &a[..n], &b[..n]);
        rm3_into(&mut most[..n], &a[..n], &b[..n]);
        for k in 0..20usize {
            for place in 0..64u32 {
                let (x, y, z) = (bit(t[k], place), bit(a[k], place), bit(b[k], place));
                let done = k < n;
                assert_eq!(rt; bit(ones[k], place), x || done);
                assert_eq!(rt; bit(one[k], place), x && !(done && y));
                assert_eq!(rt; bit(two[k], place), x && !(done && (y || z)));
                let majority = if y == z { x } else { y };
                assert_eq!(rt; bit(most[k], place), if done { majority } else { x });
            }
        }
    }
}

#[test]
fn a_program_runs_in_every_row(rt: HostRuntime) -> Result<(), Fail> {
    let program = Program::new(and_draft(rt.alloc())?)?;
    let mut bank = Bank::new(rt.alloc(), 6, 2)?;
    bank.fill(Fill::Ones);
    bank.put_column(0, &[12, 0]);
    bank.put_column(1, &[10, u64::MAX]);
    bank.run(&program);
    assert_eq!(rt; bank.column(4), [8, 0].as_slice());
    assert_eq!(rt; bank.column(5), [u64::MAX, u64::MAX].as_slice());
    assert_eq!(rt; bank.column(6), [0, 0].as_slice());
    assert_eq!(rt; bank.column(7), [u64::MAX, u64::MAX].as_slice());
    Ok(())
}

#[test]
fn a_column_is_written_beside_two_that_are_read(rt: HostRuntime) -> Result<(), Fail> {
    let mut bank = Bank::new(rt.alloc(), 3, 1)?;
    bank.put_column(0, &[6]);
    bank.put_column(2, &[5]);
    let (target, first, second) = bank.triple(2, 0, 4);
    assert_eq!(rt; first, [6].as_slice());
    assert_eq!(rt; second, [u64::MAX].as_slice());
    nor1_into(target, first);
    assert_eq!(rt; bank.column(0), [6].as_slice());
    assert_eq!(rt; bank.column(2), [1].as_slice());
    Ok(())
}

#[test]
fn instructions_take_each_kind_of_operand(rt: HostRuntime) -> Result<(), Fail> {
    let mut bank = Bank::new(rt.alloc(), 5, 1)?;
    bank.column_mut(0).copy_from_slice(&[1]);
    bank.put_column(1, &[2]);
    bank.put_column(2, &[4]);
    bank.put_column(3, &[8]);
    bank.put_column(4, &[31]);
    bank.apply(&Instr::Nor {
        t: 4,
        ins: Ins::Three(0, 1, 2),
    });
    assert_eq!(rt; bank.column(4), [24].as_slice());
    bank.put_column(4, &[31]);
    bank.apply(&Instr::Nor {
        t: 4,
        ins: Ins::Four(0, 1, 2, 3),
    });
    assert_eq!(rt; bank.column(4), [16].as_slice());
    bank.apply(&Instr::Rm3 {
        p: Operand::One,
        q: Operand::Cell(1),
        z: 4,
    });
    assert_eq!(rt; bank.column(4), [u64::MAX - 2].as_slice());
    Ok(())
}
