//! What a machine tells of its states, against values by hand.

use crate::machines::plant;
use std::alloc::{AllocError, Global};
use std::fmt::Write;
use std::test::Fail;
use xc_alg::Algebra;
use xc_ctl::{Framed, weighed};
use xc_machine::Machine;

// The values of all steps as an engine asks for them, each as the meet with the top.
fn steps_told<M: Framed>(alloc: Global, machine: &M) -> Result<String, AllocError> {
    let mut text = String::new(alloc);
    for s in 0..machine.states() {
        for t in 0..machine.states() {
            let step = weighed(machine, s, t, machine.product().top());
            write!(text, "{step} ")?;
        }
        text.push(';')?;
    }
    Ok(text)
}

// What a viewpoint sees of each state.
fn seen_told(alloc: Global, machine: &Machine) -> Result<String, AllocError> {
    let mut text = String::new(alloc);
    for v in 0..machine.viewpoints() {
        text.push_str(machine.view(v).name().as_str())?;
        for s in 0..machine.states() {
            write!(text, " {}", machine.project(v, s))?;
        }
        text.push(';')?;
    }
    Ok(text)
}

#[test]
fn states_of_the_plant(rt: HostRuntime) -> Result<(), Fail> {
    let machine = plant(rt.alloc())?;
    let steps = steps_told(rt.alloc(), &machine)?;
    assert_eq!(rt;
        steps.as_str(),
        "0 5 0 0 0 0 ;1 8 0 8 0 8 ;2 2 0 5 0 4 ;2 10 1 8 0 8 ;0 0 0 4 0 5 ;0 8 0 8 1 8 ;"
    );
    let seen = seen_told(rt.alloc(), &machine)?;
    assert_eq!(rt; seen.as_str(), "left 0 2 1 3 1 3;right 1 1 0 0 2 2;");
    assert_eq!(rt; machine.initials().as_slice(), [3u32, 5].as_slice());
    Ok(())
}
