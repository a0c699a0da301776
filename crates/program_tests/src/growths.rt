//! Refused memory: a run of the program ends with 5, or as with ample memory. bench/growths.py runs
//! the test once for each of its allocations, which it refuses from outside.
use crate::worked_files::{TABLE, TABLE_TEXT, UNSORTED};
use plist_convert::run;
use std::test::Fail;

// The output has capacity for all that is printed, so only the program itself allocates.
#[test]
fn a_run_prints_into_reserved_space(rt: HostRuntime) -> Result<(), Fail> {
    for octets in [TABLE_TEXT, UNSORTED] {
        let mut output = Vec::with_capacity(rt.alloc(), 1_000)?;
        let mut input = octets;
        let status = run(&rt, rt.alloc(), &[], &mut input, &mut output);
        let is_done = status == 0 && output.as_slice() == TABLE;
        assert!(rt; is_done || status == 5);
    }
    Ok(())
}
