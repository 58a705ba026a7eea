//! Calls below the commands, with ample memory.

use bn_circuits::{Line, Net, NetRefusal, Wire};
use bn_element::Rotary;
use bn_netlist::{read_config, write_config};
use std::test::Fail;

// The wire that leaves an output line and ends at an input line; a line is an element's number and
// its own.
fn wire(from: (u32, u32), to: (u32, u32)) -> Wire {
    Wire {
        from: Line {
            element: from.0,
            line: from.1,
        },
        to: Line {
            element: to.0,
            line: to.1,
        },
    }
}

#[test]
fn makes_a_net_of_two_elements(rt: HostRuntime) -> Result<(), Fail> {
    let elements = vec![in rt.alloc(); Rotary; 2]?;
    let wires = [wire((0, 0), (1, 3)), wire((1, 2), (0, 0))];
    let Ok(net) = Net::try_new(rt.alloc(), elements, &wires) else {
        return Err(Fail::from(std::alloc::AllocError));
    };
    assert_eq!(rt; net.len(), 2);
    Ok(())
}

#[test]
fn names_the_first_faulty_wire(rt: HostRuntime) -> Result<(), Fail> {
    let elements = vec![in rt.alloc(); Rotary; 2]?;
    let wires = [wire((0, 0), (1, 3)), wire((2, 0), (0, 0))];
    let refusal = Net::try_new(rt.alloc(), elements, &wires).err();
    assert_eq!(rt; refusal, Some(NetRefusal::Range { i: 2 }));
    let elements = vec![in rt.alloc(); Rotary; 2]?;
    let wires = [wire((0, 0), (1, 3)), wire((0, 0), (0, 0))];
    let refusal = Net::try_new(rt.alloc(), elements, &wires).err();
    assert_eq!(rt; refusal, Some(NetRefusal::TwoTargets { i: 2 }));
    let elements = vec![in rt.alloc(); Rotary; 2]?;
    let wires = [wire((0, 0), (1, 3)), wire((1, 0), (1, 3))];
    let refusal = Net::try_new(rt.alloc(), elements, &wires).err();
    assert_eq!(rt; refusal, Some(NetRefusal::TwoSources { i: 2 }));
    Ok(())
}

#[test]
fn reads_a_text_and_writes_it_again(rt: HostRuntime) -> Result<(), Fail> {
    let text = b"rotary 1\nelements 2\nstart 0.n\nend 1.s\nsteps 12\nleft 1.e\n\
        e 0 V - 1.w 0.e -\ne 1 H 0.w - - 1.n\n";
    let Ok(config) = read_config(rt.alloc(), text.as_slice()) else {
        return Err(Fail::from(std::alloc::AllocError));
    };
    let Ok(written) = write_config(rt.alloc(), &config) else {
        return Err(Fail::from(std::alloc::AllocError));
    };
    assert_eq!(rt; written.as_slice(), text.as_slice());
    Ok(())
}
