//! A method of a class file, and its flow graph.

ghost use Rattle.std.specs.Prelude.{◌≡◌};
ghost use Rattle.jvm_model.specs.Layout.{HasCodeAttribute};
ghost use Rattle.jvm_model.specs.Soundness.{IsChecked};
ghost use Rattle.code_reader.specs.Places.{method_offset};
ghost use Rattle.lowering_supply.specs.Methods.{IsShown, TellsFlow, TellsSupplied};
ghost use Rattle.op_model.specs.Supplies.{IsCodedMethod};

use code_reader::read_code_at;
use failure::Failure;
use flow_graph::{Graph, graph};
use jvm_model::{ClassFile, ClassNo, Code, MethodNo, ReadFailure};
use lowering::{class_refusal, lower_method};
use op_model::{LoweredMethod, SupplyFailure};
use program_model::method_body::MethodBody;
use program_model::program::Program;
use std::alloc::Global;

/// A method of a class file that has code for it: its number in the program, its class, and the class file with the method's place
/// among the methods of the file.
#[derive(Clone, Copy)]
pub(crate) struct CodedMethod<'p> {
    pub(crate) number: MethodNo,
    pub(crate) class: ClassNo,
    pub(crate) file: &'p ClassFile,
    pub(crate) place: usize,
}

/// The code of a method, and its flow graph.
#[derive(Drop)]
pub(crate) struct Flow {
    pub(crate) code: Code,
    pub(crate) graph: Graph,
}

/// The method of the number.
pub(crate) fn coded_method(program: &Program, number: MethodNo) -> CodedMethod<'_>
    requires { IsCodedMethod program.now number.0 }
    ensures shown { IsShown program.now result }
    ensures same { result.number ≡ number }
{
    program.well_formed();
    let MethodBody::InFile {
        file,
        number: place,
    } = program.method_body(number)
    else {
        unreachable!()
    };
    CodedMethod {
        number,
        class: program.method(number).class,
        file,
        place,
    }
}

/// The code of the method and its flow graph, where the file offset of its first byte is known.
fn flow_of(alloc: Global, method: CodedMethod<'_>, offset: u32) -> Result<Flow, ReadFailure>
    requires checked { IsChecked method.file.now }
    requires code { HasCodeAttribute method.file.now method.place }
    requires offset { offset ≡ method_offset method.file.now method.place }
    ensures { TellsFlow method.entry.file.now method.entry.place result }
{
    let code = read_code_at(alloc, method.file, method.place, offset)?;
    let graph = graph(alloc, method.file, &code)?;
    Ok(Flow { code, graph })
}

/// The method as nodes, where the file offset of its first byte is known.
pub(crate) fn lower_at(
    alloc: Global,
    program: &Program,
    method: CodedMethod<'_>,
    offset: u32,
) -> Result<LoweredMethod, SupplyFailure>
    requires shown { IsShown program.now method }
    requires offset { offset ≡ method_offset method.file.now method.place }
    ensures { TellsSupplied program.now method.entry.number.0 result }
{
    match flow_of(alloc, method, offset) {
        Ok(flow) => lower_method(alloc, program, method.number, &flow.code, &flow.graph),
        Err(Failure::Cause(fault)) => Err(class_refusal(alloc, program, method.class, fault)),
        Err(Failure::OutOfMemory) => Err(Failure::OutOfMemory),
    }
}
