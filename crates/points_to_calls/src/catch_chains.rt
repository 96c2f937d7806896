//! Where exceptions go.

ghost use Rattle.std.specs.Prelude.{◌≡◌, Some, slice_get};
ghost use Rattle.points_to_calls.specs.Parts.{GoesTo, IsCatchChainPlace};
ghost use Rattle.points_to_constraints.specs.Items.{CatchChain as ItemCatchChain};
ghost use Rattle.points_to_numbers.specs.Numbered.{IsNumbered};

use handler_search::takes;
use points_to_numbers::{CatchChain, CatchChainNo, Tables};
use points_to_rules::PlaceNo;
use program_model::program::Program;

/// Where an exception of a class goes: the place of the first handler that takes it, or else the place outside of the method.
pub(crate) fn lands(
    program: &Program,
    tables: &Tables,
    catch_chain: CatchChainNo,
    class: &[u8],
) -> PlaceNo
    requires { IsNumbered tables.now.catch_chains catch_chain.0 }
    ensures { (l : ItemCatchChain) → slice_get tables.now.catch_chains catch_chain.0 ≡ Some l → IsCatchChainPlace program.now tables.now class.now l result }
{
    goes_to(program, tables.catch_chain_of(catch_chain), class)
}

/// Where an exception of a class goes, by the entry of the catch chain. The class is looked up only where there is a catch clause.
fn goes_to(program: &Program, catch_chain: &CatchChain, class: &[u8]) -> PlaceNo
    ensures { GoesTo program.now class.now catch_chain.now.catch_clauses catch_chain.now.outside result }
{
    if catch_chain.catch_clauses.is_empty() {
        return catch_chain.outside;
    }
    let thrown = program.find(class);
    for catch_clause in catch_chain.catch_clauses.as_slice() {
        if takes(program, catch_clause.handler, thrown, class) {
            return catch_clause.to;
        }
    }
    catch_chain.outside
}
