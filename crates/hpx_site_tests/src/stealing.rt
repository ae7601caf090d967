//! A run whose workers steal from each other.
use crate::ended::{Given, ran};
use crate::gates::Third;
use hpx_ports::order::Order;
use std::test::Fail;

// All jobs that are ready are handed out one directly after another, and lie on one hand. The third that passes the gate is held until
// a fourth has passed: another thread runs that one, and has stolen it, or the third was stolen.
#[test]
fn an_idle_worker_steals(rt: HostRuntime) -> Result<(), Fail> {
    let gate = Third::new(&rt);
    let given = Given {
        words: "fib --n-value 20 --hpx:threads=2",
        order: Order::FirstIn,
        sends: &[],
    };
    let ended = ran(&rt, rt.alloc(), &given, &gate)?;
    assert_eq!(rt; ended.status, 0);
    assert_eq!(rt;
        ended.text.as_slice(),
        b"fibonacci(20) == 6765\n".as_slice()
    );
    let Some(told) = ended.told else {
        return Err(Fail::new("no world"));
    };
    assert!(rt; told.fires >= 3);
    let passed = gate.into_passed();
    assert!(rt; passed.jobs >= 4);
    assert!(rt; !passed.in_vain);
    assert!(rt; passed.third != passed.fourth);
    Ok(())
}
