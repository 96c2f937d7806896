//! The flow graph of a method that is made by hand. The program `cases_readers` tells what it tells of others.

use crate::one_method::class_of;
use code_reader::read_code;
use flow_graph::{Graph, graph};
use std::process::Abort;
use std::test::*;

/// Code with `iconst_0` and `ireturn`, without handlers and attributes.
const BODY: [u8; 14] = [0, 1, 0, 1, 0, 0, 0, 2, 3, 172, 0, 0, 0, 0];

/// What is told of the second instruction.
fn look_at_second(rt: &impl Abort, graph: &Graph) {
    let Some(step) = graph.steps.as_slice().get(1) else {
        panic!(rt; "the second instruction is not reached");
    };
    assert_eq!(rt; (step.offset, step.height), (1, 1));
    assert!(rt; step.successors.is_empty());
}

#[test]
fn the_flow_graph_of_a_method_is_told(rt: HostRuntime) -> Result<(), Fail> {
    let class = class_of(rt.alloc(), &BODY)?;
    let code = read_code(rt.alloc(), &class, 0)?;
    look_at_second(&rt, &graph(rt.alloc(), &class, &code)?);
    Ok(())
}
