//! The supplier of the methods of a folder's class files.

ghost use Rattle.std.specs.Prelude.{◌≡◌, ◌↔◌, IfOk, IsTrue};
ghost use Rattle.code_reader.specs.Places.{method_offset};
ghost use Rattle.program_model.specs.Numbers.{IsMethodNumber};
ghost use Rattle.lowering_supply.specs.Methods.{IsShown};
ghost use Rattle.op_model.specs.Supplies.{IsCodedMethod};

use crate::coded::{CodedMethod, coded_method, lower_at};
use crate::offsets::method_offsets;
use jvm_model::MethodNo;
use lowering_handlers::has_code;
use op_model::{LoweredMethod, Supply, SupplyFailure};
use program_model::method_body::MethodBody;
use program_model::program::Program;
use std::alloc::{AllocError, Global};
use std::collections::BTreeMap;
use std::marker::Model;

/// The methods of the class files of a program that have code, as nodes. The file offsets of the methods of a class are counted once,
/// when the first method of the class is asked for.
#[derive(Drop)]
pub struct FolderSupply<'p> {
    program: &'p Program,
    offsets: BTreeMap<u32, Vec<u32>>,
}

impl<'p> Model for FolderSupply<'p> {
    ghost use Rattle.jvm_model.specs.Programs.{Program as LinkedProgram};
    ghost use Rattle.lowering_supply.specs.Offsets.{AreCounted};

    ghost Value = { LinkedProgram };

    ghost view = { λ s. s.program.now };

    ghost invariant = { λ s. AreCounted s.program.now s.offsets };
}

impl<'p> FolderSupply<'p> {
    /// The supplier of the methods of a program. It takes no memory.
    pub fn new(alloc: Global, program: &'p Program) -> FolderSupply<'p>
        ensures { result ≡ program.now }
    {
        FolderSupply {
            program,
            offsets: BTreeMap::new(alloc),
        }
    }

    /// Whether the method is served: it is one of a class file, and has code there (JVMS 4.7.3).
    pub fn serves(&self, method: MethodNo) -> bool
        requires { IsMethodNumber self.now method.0 }
        ensures { IsTrue result ↔ IsCodedMethod self.now method.0 }
    {
        self.program.well_formed();
        match self.program.method_body(method) {
            MethodBody::InFile { file, number } => has_code(file, number),
            MethodBody::Described(_) => false,
        }
    }

    /// The file offset of the first byte of the method.
    fn offset_of(&mut self, alloc: Global, method: CodedMethod<'_>) -> Result<u32, AllocError>
        requires { IsShown self.old method }
        ensures same { self.new ≡ self.old }
        ensures offset { IfOk result (λ offset. offset ≡ method_offset method.entry.file.now method.entry.place) }
    {
        if let Some(offsets) = self.offsets.get(&method.class.0) {
            return Ok(offsets[method.place]);
        }
        self.program.well_formed();
        let offsets = method_offsets(alloc, method.file)?;
        let offset = offsets[method.place];
        self.offsets.insert(method.class.0, offsets)?;
        Ok(offset)
    }
}

impl<'p> Supply for FolderSupply<'p> {
    ghost use Rattle.std.specs.Prelude.{IfErr, Ok};
    ghost use Rattle.op_model.specs.Supplies.{IsRefusalOf, IsSameSupply};
    ghost use Rattle.lowering_supply.specs.OneAnswer.{one_answer};
    ghost use Rattle.lowering_supply.specs.Supplied.{IsSupplied};

    ghost gives = { IsSupplied };

    /// The nodes of a method of a class file that has code for it, in order; or its first refusal: that of `read_code`, of `graph` or
    /// of `lower_method`, with the file of its class; or out of memory. The methods that stand before it in its file are not passed over
    /// anew.
    fn lowered(&mut self, alloc: Global, method: MethodNo) -> Result<LoweredMethod, SupplyFailure>
        requires { IsCodedMethod self.old method.0 }
        ensures found { IfOk result (λ lowered. IsSupplied self.old method.0 (Ok lowered)) }
        ensures failed { IfErr result (IsRefusalOf (IsSupplied self.old method.0)) }
        ensures same { IsSameSupply (IsSupplied self.old) (IsSupplied self.new) }
        ensures unchanged { self.new ≡ self.old }
    {
        let program = self.program;
        let method = coded_method(program, method);
        let offset = self.offset_of(alloc, method)?;
        lower_at(alloc, program, method, offset)
    }

    ghost one_answer = { one_answer };
}
