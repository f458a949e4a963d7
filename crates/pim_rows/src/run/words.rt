//! Words of `run`.
use crate::case::{AND_PROGRAM, call_on, gives, stops};
use pim_top::Status;
use std::test::Fail;

#[test]
fn words_are_judged(rt: HostRuntime) -> Result<(), Fail> {
    let alloc = rt.alloc();
    let refused: [&'static [&'static str]; 5] = [
        &["run"],
        &["run", "p", "q"],
        &["run", "p", "--fill"],
        &["run", "p", "--fill", "both"],
        &["run", "p", "--help"],
    ];
    for words in refused {
        let ending = call_on(alloc, words, AND_PROGRAM, b"11\n")?;
        stops(&rt, alloc, &ending, Status::Usage, b"", "usage")?;
    }
    let ending = call_on(alloc, &["run", "--help"], AND_PROGRAM, b"11\n")?;
    gives(&rt, &ending, b"1\n");
    Ok(())
}
