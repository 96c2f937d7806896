//! From a method of a program to its nodes.

ghost use Rattle.std.specs.Prelude.{◌≡◌};
ghost use Rattle.program_model.specs.Numbers.{IsMethodNumber};

use jvm_model::MethodNo;
use lowering_supply::FolderSupply;
use op_model::{LoweredMethod, Supply, SupplyFailure};
use std::alloc::Global;

/// The nodes of a method, or its first refusal; `None` of one for which no class file has code.
pub fn lowered(
    alloc: Global,
    supply: &mut FolderSupply<'_>,
    method: MethodNo,
) -> Result<Option<LoweredMethod>, SupplyFailure>
    requires { IsMethodNumber supply.old method.0 }
    ensures { supply.new ≡ supply.old }
{
    if supply.serves(method) {
        Ok(Some(supply.lowered(alloc, method)?))
    } else {
        Ok(None)
    }
}
