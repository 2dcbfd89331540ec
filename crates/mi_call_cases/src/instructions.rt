//! Instructions over an arithmetic that refuses: that of origin forms, which no command computes with.
use mi_arith::{Arith, Origin, Why};
use mi_model::Fault;
use mi_prims::prim;
use mi_region::State;
use std::test::Fail;

const ORIGIN: Origin = Origin { size: 65_536 };

/// AND of an address and a mask above the grid is refused; their sum isn't.
#[test]
fn a_refused_instruction_changes_nothing(rt: HostRuntime) -> Result<(), Fail> {
    let mut state = State::new(rt.alloc(), ORIGIN, 65_536)?;
    let there = ORIGIN.region_cell(100);
    state.put(there);
    state.put(ORIGIN.plain(4096));
    let answer = prim(47, &mut state, there);
    assert!(rt; matches!(answer, Err(Fault::Refused { why: Why::Mask, .. })));
    assert!(rt; state.depth() == 2);
    assert!(rt; prim(42, &mut state, there).is_ok());
    assert!(rt; state.depth() == 1);
    Ok(())
}
