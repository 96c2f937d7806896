//! When the machine goes on: that a step is there wherever one should be.

ghost use Rattle.std.specs.Prelude.{◌≡◌, ℕ, ◌<◌, false, List, ◌∷◌, length, slice_set, Contains};
ghost use Rattle.jvm_model.specs.Table.{load_element, store_element, make_array};
ghost use Rattle.machine_bytecode.specs.Machine.{At, AtStart, Throwing, HasOperands, MethodCode, IsTriggered, IsInitialiser, IsUncaught, NamesArrays};
ghost use Rattle.machine_bytecode.specs.Objects.{Subject, IsArrayOf, MayStand};
ghost use Rattle.machine_bytecode.specs.States.{Frame, State, Value, primitive_value, null_value, reference_to, elements, slot_at, with_contents};
ghost use Rattle.machine_laws.specs.Progress.{GoesOn, IsReady, CanCatch, WrapsThrown, GoesOnward, dimensions_of, with_arrays};

/// The machine goes on at an instruction that has what it asks for.
pub fn running_goes_on()
    ensures { (x : Subject) (s : State) (at : At x.program s) (kept units : List Value)
        → HasOperands at.now.row at.frame.slots kept units → IsReady at.now.row.action x s at units → GoesOn x s }
{}

/// It goes on where an object is thrown, if the frame has its local variables or is that of the start.
pub fn throwing_goes_on()
    ensures { (x : Subject) (s : State) (at : Throwing s) → CanCatch x at.frame → GoesOn x s }
{}

/// It goes on at the start: to an entry that has code, and after that to the end.
pub fn start_goes_on()
    ensures calls { (x : Subject) (s : State) → AtStart s 0 → MethodCode x.program x.entry → GoesOn x s }
    ensures ends { (x : Subject) (s : State) → AtStart s 1 → GoesOn x s }
{}

/// It goes on at a trigger for a class with an initialiser: one that was not started is started, and one that was is denied.
pub fn triggers_go_on()
    ensures { (x : Subject) (s : State) (f : Frame) (below : List Frame) (class : List ℕ) (number : ℕ)
        → IsTriggered x s f below class → IsInitialiser x.program class number → GoesOn x s }
{}

/// What no handler of an initialiser takes becomes an ExceptionInInitializerError at its trigger.
pub fn initialisers_wrap()
    ensures { (x : Subject) (s : State) (at : Throwing s) (caller : Frame) (rest : List Frame) → IsUncaught x.program at.frame at.object.class
        → at.below ≡ caller ∷ rest → caller.waits ≡ false → WrapsThrown x s at caller rest }
{}

/// An instruction on an array of references need not raise: each element may be loaded, and what may stand in the array may be
/// stored at each index. New arrays may have any lengths.
pub fn arrays_go_on()
    ensures loads { (x : Subject) (s : State) (at : At x.program s) (kept units : List Value) → HasOperands at.now.row at.frame.slots kept units
        → at.now.row.action ≡ load_element → (array : IsArrayOf null_value s.world (slot_at units 0)) (v : Value)
        → Contains array.array.values v → GoesOnward x s at v s.world }
    ensures stores { (x : Subject) (s : State) (at : At x.program s) (kept units : List Value) → HasOperands at.now.row at.frame.slots kept units
        → at.now.row.action ≡ store_element → (array : IsArrayOf null_value s.world (slot_at units 0))
        → MayStand x.program s.world array.array.to.object.class (slot_at units 2) → (index : ℕ) → index < length array.array.values
        → GoesOnward x s at primitive_value (with_contents s.world array.array.to.place array.array.to.object
        (elements (slice_set array.array.values index (slot_at units 2)))) }
    ensures makes { (x : Subject) (s : State) (at : At x.program s) (kept units : List Value) → HasOperands at.now.row at.frame.slots kept units
        → at.now.row.action ≡ make_array → (arrays : List (List ℕ)) → NamesArrays at.now.here.code.file.pool at.now.instruction arrays
        → (first : ℕ) (others : List ℕ) → length (first ∷ others) ≡ length arrays
        → GoesOnward x s at (reference_to (length s.world.heap)) (with_arrays x s.world (dimensions_of at.frame arrays (first ∷ others))) }
{}
