//! A machine over an arithmetic that refuses, and many instructions in one call: commands take them one by one.
use mi_arith::{Form, Origin};
use mi_machine::{Machine, Stop};
use mi_region::State;
use std::test::Fail;

const ORIGIN: Origin = Origin { size: 65_536 };

/// The first token is twice the data base, of which the arithmetic says nothing. No tag was found before it.
#[test]
fn a_refused_instruction_is_not_taken(rt: HostRuntime) -> Result<(), Fail> {
    let mut state = State::new(rt.alloc(), ORIGIN, 65_536)?;
    state.store_system(264, Form { a: 2, b: 0, c: 0 })?;
    let advanced = Machine::new(state).advance(5);
    assert!(rt;
        matches!(
            advanced.stop,
            Stop::Refused {
                offset: 4144,
                tag: 0,
                ..
            }
        )
    );
    assert!(rt; advanced.taken == 0);
    Ok(())
}

/// The first token is the number 0, which is no address.
#[test]
fn an_instruction_that_throws_is_taken(rt: HostRuntime) -> Result<(), Fail> {
    let state = State::new(rt.alloc(), ORIGIN, 65_536)?;
    let advanced = Machine::new(state).advance(5);
    assert!(rt; advanced.stop == Stop::Thrown(-9));
    assert!(rt; advanced.taken == 1);
    Ok(())
}
