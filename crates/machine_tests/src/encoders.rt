//! What an encoder reads of a machine, against values by hand.

ghost use Rattle.std.specs.Prelude.{◌<◌, ◌≤◌, length};
ghost use Rattle.xc_machine.specs.Machines.{merge_of};

use crate::machines::plant;
use std::alloc::{AllocError, Global};
use std::fmt::Write;
use std::test::Fail;
use xc_machine::Machine;

// Some counted things, of which these machines have few.
fn few(count: usize) -> u8
    ensures { result ≤ count }
{
    if count < 256 { count as u8 } else { 0 }
}

// Where each variable of a viewpoint is read from, and the places that the values are carried to.
fn feeds_told(alloc: Global, machine: &Machine, v: u8) -> Result<String, AllocError>
    requires { v < length (merge_of machine.now).viewpoints }
{
    let mut text = String::new(alloc);
    for x in 0..few(machine.view(v).vars().len()) {
        let source = machine.source(v, x);
        write!(text, " {source}:")?;
        let domain = machine.map().vars().get(usize::from(source));
        for m in 0..few(domain.values.len()) {
            write!(text, "{}", machine.carried(v, x, m))?;
        }
    }
    Ok(text)
}

// The elements of a viewpoint's commands, and those of its lines.
fn elements_told(alloc: Global, machine: &Machine, v: u8) -> Result<String, AllocError>
    requires { v < length (merge_of machine.now).viewpoints }
{
    let mut text = String::new(alloc);
    for c in 0..few(machine.view(v).commands().len()) {
        write!(text, " {}", machine.weight(v, u16::from(c)))?;
    }
    text.push(',')?;
    for l in 0..few(machine.view(v).props().len()) {
        write!(text, " {}", machine.mark(v, u16::from(l)))?;
    }
    Ok(text)
}

// What a viewpoint tells everywhere of each proposition of the map, and which of its lines count.
fn tellings_told(alloc: Global, machine: &Machine, v: u8) -> Result<String, AllocError>
    requires { v < length (merge_of machine.now).viewpoints }
{
    let mut text = String::new(alloc);
    for p in 0..few(machine.map().props().len()) {
        let p = u16::from(p);
        write!(text, " {:?}", machine.fixed(v, p))?;
        for l in 0..few(machine.view(v).props().len()) {
            write!(text, "{}", u8::from(machine.counts(v, u16::from(l), p)))?;
        }
    }
    Ok(text)
}

// All of this for each viewpoint, with its stutter value.
fn told(alloc: Global, machine: &Machine) -> Result<String, AllocError> {
    let mut text = String::new(alloc);
    for v in 0..machine.viewpoints() {
        text.push_str(feeds_told(alloc, machine, v)?.as_str())?;
        text.push_str(elements_told(alloc, machine, v)?.as_str())?;
        text.push_str(tellings_told(alloc, machine, v)?.as_str())?;
        write!(text, " {};", machine.stutter(v))?;
    }
    Ok(text)
}

#[test]
fn parts_of_the_plant(rt: HostRuntime) -> Result<(), Fail> {
    let machine = plant(rt.alloc())?;
    assert_eq!(rt;
        told(rt.alloc(), &machine)?.as_str(),
        " 1:01 0:011 1 2 0, 2 1 1 None101 Some(1)000 0; 0:102 2, 1 2 Some(2)00 None11 1;"
    );
    Ok(())
}
