//! The programs are those that linking makes of their class files and stubs.

ghost use Rattle.std.specs.Prelude.{ℕ, Ok, ◌∷◌};
ghost use Rattle.jvm_model.specs.Code.{CodeBody};
ghost use Rattle.jvm_model.specs.Linking.{Links};
ghost use Rattle.example_machine.specs.Building.{files_of, stubs_of};
ghost use Rattle.example_machine.specs.Within.{order as within_order, program_with as within_program};
ghost use Rattle.example_machine.specs.Calling.{order as calling_order, program_with as calling_program};
ghost use Rattle.example_machine.specs.Excepting.{order as excepting_order, program_with as excepting_program};
ghost use Rattle.example_machine.specs.Initialising.{order as initialising_order, program_with as initialising_program};
ghost use Rattle.example_machine.specs.Patching.{main_patch, order as patching_order, program as patching_program};

/// Whatever the code of `main` is, linking gives the program.
pub fn programs_are_linked()
    ensures within { (descriptor : ℕ) (k : CodeBody) → Links (files_of (within_order descriptor k)) (stubs_of (within_order descriptor k)) (Ok (within_program descriptor k)) }
    ensures calling { (k : CodeBody) → Links (files_of (calling_order k)) (stubs_of (calling_order k)) (Ok (calling_program k)) }
    ensures excepting { (k : CodeBody) → Links (files_of (excepting_order k)) (stubs_of (excepting_order k)) (Ok (excepting_program k)) }
    ensures initialising { (k : CodeBody) → Links (files_of (initialising_order k)) (stubs_of (initialising_order k)) (Ok (initialising_program k)) }
    ensures patching { Links (files_of patching_order) (main_patch ∷ stubs_of patching_order) (Ok patching_program) }
{}
