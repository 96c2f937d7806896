//! When the machine that runs nodes goes on: that a step is there wherever one should be.

ghost use Rattle.std.specs.Prelude.{codes, ◌≡◌, ◌⊎◌, ℕ, ◌<◌, ◌≤◌, false, true, List, [], ◌∷◌, length, slice_get, slice_set, Option, Some, None, Contains};
ghost use Rattle.jvm_model.specs.declared.number.ClassNo.{ClassNo};
ghost use Rattle.jvm_model.specs.declared.site.Site.{Site};
ghost use Rattle.jvm_model.specs.declared.stub.StubResult.{StubResult};
ghost use Rattle.jvm_model.specs.Programs.{Method};
ghost use Rattle.op_model.specs.declared.node.Node.{Node};
ghost use Rattle.op_model.specs.declared.op.Call.{Call as NodeCall};
ghost use Rattle.op_model.specs.declared.op.Op.TheVariants.{LoadElement, StoreElement, NewArray, Call, Return, Throw};
ghost use Rattle.op_model.specs.Supplies.{Given};
ghost use Rattle.machine_bytecode.specs.Described.{DescribedMethod};
ghost use Rattle.machine_bytecode.specs.Machine.{AtStart, Throwing, IsInitialiser};
ghost use Rattle.machine_bytecode.specs.Objects.{Subject, IsOf, IsArrayOf, MayStand};
ghost use Rattle.machine_bytecode.specs.States.{Frame, State, Value, World, null_value, elements, slot_at, with_contents};
ghost use Rattle.machine_nodes.specs.Nodes.{IsClassNumber, AreStartNodes, StandsAt};
ghost use Rattle.machine_nodes.specs.NodeSteps.{AtNode, EntersEntry, Resumes, Ends, Throws, Catches, Unwinds, IsUncaught};
ghost use Rattle.machine_nodes.specs.Slots.{argument_values};
ghost use Rattle.machine_laws.specs.Progress.{CanGive, with_arrays};
ghost use Rattle.machine_laws.specs.NodeProgress.{GoesOn, IsReadyOp, CanLead, GoesTo, GoesToWith, dimensions_for, IsGiven, HasCallTarget, InMethod, GoesInto, Answers, Fails, ReturnsTo, MayRaise, ThrowsOne, StartsOne};

/// The machine goes on at a node that has what its operation asks for.
pub fn running_goes_on()
    ensures { (x : Subject) (given : Given) (s : State) (at : AtNode x given s) → IsReadyOp at.now.node.op x given s at → GoesOn x given s }
{}

/// An operation that can go on does so at each successor of its node.
pub fn operations_go_on()
    ensures { (x : Subject) (given : Given) (s : State) (at : AtNode x given s) → CanLead at.now.node.op x s.world at.frame.slots
        → (successor : ℕ) → Contains at.now.node.successors successor → (after : World) × GoesTo x given s at successor after }
{}

/// Each element of an array may be loaded, and what may stand in the array may be stored at each index. New arrays may have any
/// lengths.
pub fn arrays_go_on()
    ensures loads { (x : Subject) (given : Given) (s : State) (at : AtNode x given s) (array target : ℕ) → at.now.node.op ≡ LoadElement array target
        → (of : IsArrayOf null_value s.world (slot_at at.frame.slots array)) (v : Value) → Contains of.array.values v
        → (successor : ℕ) → Contains at.now.node.successors successor → GoesToWith x given s at successor s.world target v }
    ensures stores { (x : Subject) (given : Given) (s : State) (at : AtNode x given s) (array value : ℕ) → at.now.node.op ≡ StoreElement array value
        → (of : IsArrayOf null_value s.world (slot_at at.frame.slots array)) → MayStand x.program s.world of.array.to.object.class (slot_at at.frame.slots value)
        → (index : ℕ) → index < length of.array.values → (successor : ℕ) → Contains at.now.node.successors successor
        → GoesTo x given s at successor (with_contents s.world of.array.to.place of.array.to.object (elements (slice_set of.array.values index (slot_at at.frame.slots value)))) }
    ensures makes { (x : Subject) (given : Given) (s : State) (at : AtNode x given s) (sites : List Site) (target : ℕ) → at.now.node.op ≡ NewArray sites target
        → (first : ℕ) (others : List ℕ) → length (first ∷ others) ≡ length sites → (successor : ℕ) → Contains at.now.node.successors successor
        → GoesTo x given s at successor (with_arrays x s.world (dimensions_for sites (first ∷ others))) }
{}

/// A call enters a target that is given as nodes. Where the target is described, it gives each listed result that can be given,
/// and goes on at each successor; and it throws each listed exception.
pub fn calls_go_on()
    ensures enters { (x : Subject) (given : Given) (s : State) (at : AtNode x given s) → InMethod at.frame → (call : NodeCall) → at.now.node.op ≡ Call call
        → (to : HasCallTarget x s.world call (argument_values call.arguments at.frame.slots)) → IsGiven given to.target → GoesInto x given s at to.target }
    ensures gives { (x : Subject) (given : Given) (s : State) (at : AtNode x given s) → InMethod at.frame → (call : NodeCall) → at.now.node.op ≡ Call call
        → (to : HasCallTarget x s.world call (argument_values call.arguments at.frame.slots)) (d : DescribedMethod x to.target) (place : ℕ) (r : StubResult)
        → slice_get d.stub.returns place ≡ Some r → CanGive x to.target d (argument_values call.arguments at.frame.slots) s.world r
        → (successor : ℕ) → Contains at.now.node.successors successor → Answers x given s at to.target place successor }
    ensures throws { (x : Subject) (given : Given) (s : State) (at : AtNode x given s) → InMethod at.frame → (call : NodeCall) → at.now.node.op ≡ Call call
        → (to : HasCallTarget x s.world call (argument_values call.arguments at.frame.slots)) (d : DescribedMethod x to.target) (place : ℕ) (class : List ℕ)
        → slice_get d.stub.throws place ≡ Some class → Fails x given s at to.target place }
{}

/// A return goes on at each successor of the call for which the caller waits. That of an initialiser goes on where the initialiser
/// was triggered, and that of the start ends.
pub fn returns_go_on()
    ensures to_calls { (x : Subject) (given : Given) (s : State) (at : AtNode x given s) (value : Option ℕ) → at.now.node.op ≡ Return value
        → (caller : Frame) (rest : List Frame) → at.below ≡ caller ∷ rest → caller.waits ≡ true → (now : StandsAt x given caller) (call : NodeCall) → now.node.op ≡ Call call
        → (successor : ℕ) → Contains now.node.successors successor → ReturnsTo x given s at successor }
    ensures to_triggers { (x : Subject) (given : Given) (s : State) (at : AtNode x given s) (value : Option ℕ) → at.now.node.op ≡ Return value
        → (caller : Frame) (rest : List Frame) → at.below ≡ caller ∷ rest → caller.waits ≡ false → (t : State) × Resumes x given s t at }
    ensures ends { (x : Subject) (given : Given) (s : State) (at : AtNode x given s) (value : Option ℕ) → at.now.node.op ≡ Return value
        → at.frame.method ≡ None → (t : State) × Ends x given s t at }
{}

/// An object that fits Throwable is thrown.
pub fn objects_are_thrown()
    ensures { (x : Subject) (given : Given) (s : State) (at : AtNode x given s) (value : ℕ) → at.now.node.op ≡ Throw value
        → IsOf x.program (codes "java/lang/Throwable") s.world (slot_at at.frame.slots value) → (t : State) × Throws x given s t at }
{}

/// A node may throw a new object of each class that it lists: a throw raises a null pointer for null alone.
pub fn listed_classes_are_raised()
    ensures { (x : Subject) (given : Given) (s : State) (at : AtNode x given s) (number : ClassNo) (class : List ℕ) → Contains at.now.node.throws number
        → IsClassNumber x.program number class → MayRaise at.now.node.op at.frame.slots class → ThrowsOne x given s at.frame at.below [] class }
{}

/// Where an object is thrown in a frame that stands at a node, the first handler that takes it catches it, or the frame goes.
pub fn throwing_goes_on()
    ensures { (x : Subject) (given : Given) (s : State) (at : Throwing s) → StandsAt x given at.frame
        → ((t : State) × Catches x given s t at) ⊎ ((t : State) × Unwinds x given s t at) }
{}

/// The start calls an entry that is given as nodes, and after that it ends.
pub fn start_goes_on()
    ensures calls { (x : Subject) (given : Given) (s : State) (at : AtStart s 0) (entry : Method) → slice_get x.program.methods x.entry ≡ Some entry
        → IsGiven given x.entry → (t : State) × EntersEntry x given s t at }
    ensures ends { (x : Subject) (given : Given) (s : State) → AtStart s 1 → (nodes : List Node) → AreStartNodes x nodes
        → (at : AtNode x given s) × (t : State) × Ends x given s t at }
{}

/// A node that may start an initialisation starts each initialiser that is given as nodes and was not started.
pub fn triggers_go_on()
    ensures { (x : Subject) (given : Given) (s : State) (at : AtNode x given s) (trigger : ClassNo) (class : List ℕ) (number : ℕ) → at.now.node.trigger ≡ Some trigger
        → IsClassNumber x.program trigger class → IsInitialiser x.program class number → (Contains s.world.started number → ⊥) → IsGiven given number
        → StartsOne x given s at number }
{}

/// An object that no handler of an initialiser takes becomes an ExceptionInInitializerError, where the node that waits lists that
/// class.
pub fn initialisers_wrap()
    ensures { (x : Subject) (given : Given) (s : State) (at : Throwing s) (caller : Frame) (rest : List Frame) → IsUncaught x given at.frame at.object.class
        → at.below ≡ caller ∷ rest → caller.waits ≡ false → (now : StandsAt x given caller) (number : ClassNo) → Contains now.node.throws number
        → IsClassNumber x.program number (codes "java/lang/ExceptionInInitializerError")
        → ThrowsOne x given s caller rest (at.place ∷ []) (codes "java/lang/ExceptionInInitializerError") }
{}
