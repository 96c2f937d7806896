//! Laws of the examples. They call nothing.

ghost use Rattle.std.specs.Prelude.{◌≡◌, [], ◌∷◌};
ghost use Rattle.jvm_model.specs.Spelling.{spell};
ghost use Rattle.machine_bytecode.specs.Executions.{Errs};
ghost use Rattle.machine_bytecode.specs.Objects.{Subject};
ghost use Rattle.run_spec.specs.RunSubjects.{IsRunOf};
ghost use Rattle.example_runs.specs.Examples.{EndsIn, close_twice_then_read, close_twice_then_read_bytes, default_words, made_by_entry, made_by_make, object_in_array, object_in_array_bytes, object_in_array_folder, read_after_close_folder, read_then_close, read_then_close_bytes, read_then_close_folder, second_read_folder, two_objects, two_objects_bytes, two_objects_folder, two_reads, two_reads_bytes, two_reads_folder, words};

/// The class file of two reads is spelled by these bytes.
pub fn two_reads_is_spelled()
    ensures { spell two_reads ≡ two_reads_bytes }
{}

/// The class file of a read after two calls of `close` is spelled by these.
pub fn close_twice_then_read_is_spelled()
    ensures { spell close_twice_then_read ≡ close_twice_then_read_bytes }
{}

/// The class file of a read and then a close is spelled by these.
pub fn read_then_close_is_spelled()
    ensures { spell read_then_close ≡ read_then_close_bytes }
{}

/// The class file of two objects of one site is spelled by these.
pub fn two_objects_are_spelled()
    ensures { spell two_objects ≡ two_objects_bytes }
{}

/// The class file of an object in an array is spelled by these.
pub fn object_in_array_is_spelled()
    ensures { spell object_in_array ≡ object_in_array_bytes }
{}

/// A run of two reads, where any number of them is allowed: some execution of its program ends, with the object that the entry makes opened still.
pub fn two_reads_end()
    ensures { (x : Subject) × IsRunOf words two_reads_folder x × EndsIn x (made_by_entry x) (0 ∷ []) }
{}

/// A run of two reads, where one is allowed: some execution of its program has the object in the error state.
pub fn second_read_errs()
    ensures { (x : Subject) × IsRunOf words second_read_folder x × Errs x (made_by_entry x) }
{}

/// Some execution ends, with the object in the error state, whose number is 2.
pub fn second_read_ends()
    ensures { (x : Subject) × IsRunOf words second_read_folder x × EndsIn x (made_by_entry x) (2 ∷ []) }
{}

/// A run of a read after a close: some execution of its program has the object in the error state.
pub fn read_after_close_errs()
    ensures { (x : Subject) × IsRunOf words read_after_close_folder x × Errs x (made_by_entry x) }
{}

/// Some execution ends, with the object in the error state.
pub fn read_after_close_ends()
    ensures { (x : Subject) × IsRunOf words read_after_close_folder x × EndsIn x (made_by_entry x) (2 ∷ []) }
{}

/// A run of two reads by all stages, where one is allowed: some execution of its program has the object in the error state.
pub fn second_read_errs_by_default()
    ensures { (x : Subject) × IsRunOf default_words second_read_folder x × Errs x (made_by_entry x) }
{}

/// A run of a read after a close by all stages: some execution of its program has the object in the error state.
pub fn read_after_close_errs_by_default()
    ensures { (x : Subject) × IsRunOf default_words read_after_close_folder x × Errs x (made_by_entry x) }
{}

/// A run of a read and then a close by all stages: some execution of its program ends, with the object closed, whose state has the number 1.
pub fn read_then_close_ends()
    ensures { (x : Subject) × IsRunOf default_words read_then_close_folder x × EndsIn x (made_by_entry x) (1 ∷ []) }
{}

/// A run of two objects of one site by all stages: some execution of its program ends, with the one closed and the other one opened.
pub fn two_objects_end()
    ensures { (x : Subject) × IsRunOf default_words two_objects_folder x × EndsIn x (made_by_make x) (1 ∷ 0 ∷ []) }
{}

/// A run of two objects of one site, of which one stands in an array, by all stages: some execution of its program ends, with the one closed and the other one opened.
pub fn object_in_array_ends()
    ensures { (x : Subject) × IsRunOf default_words object_in_array_folder x × EndsIn x (made_by_make x) (1 ∷ 0 ∷ []) }
{}
