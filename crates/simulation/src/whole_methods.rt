//! The law of what the supplier of a folder gives: its methods are methods of the program as the analysis takes them. It calls nothing, and stands on
//! the definitions alone.

ghost use Rattle.jvm_model.specs.Programs.{Program};
ghost use Rattle.lowering_supply.specs.Supplied.{IsSupplied};
ghost use Rattle.points_to_rules.specs.WholeMethods.{AreWholeMethods};

/// Each method that a folder supplies as nodes is whole: a class file has its code, its nodes are all reached, read its own slots, and go on and are
/// handled at nodes, its constants are among the objects that are there from the start, and what its nodes name by number is in the program.
pub fn supplied_methods_are_whole()
    ensures { (p : Program) → AreWholeMethods p (IsSupplied p) }
{}
