//! Laws of the definitions that the contract of `read_property` names: they call nothing, and hold of all bytes.

ghost use Rattle.std.specs.Prelude.{◌≡◌, ◌≢◌, ℕ, List};
ghost use Rattle.jvm_model.specs.declared.automaton.Automaton.{Automaton};
ghost use Rattle.jvm_model.specs.Automata.{IsAutomaton};
ghost use Rattle.failure.specs.declared.Failure.{Failure};
ghost use Rattle.property_file.specs.declared.property_failure.PropertyFault.{PropertyFault};
ghost use Rattle.failure.specs.declared.Failure.TheVariants.{OutOfMemory};
ghost use Rattle.property_file.specs.PropertyFile.{IsPropertyFile};
ghost use Rattle.property_file.specs.Refusals.{IsPropertyRefusal};

/// What a property file gives is the automaton of a property.
pub fn property_is_sound()
    ensures { (bytes : List ℕ) (a : Automaton) → IsPropertyFile bytes a → IsAutomaton a }
{}

/// Bytes are the property file of at most one automaton.
pub fn one_automaton()
    ensures { (bytes : List ℕ) (a b : Automaton) → IsPropertyFile bytes a → IsPropertyFile bytes b → a ≡ b }
{}

/// Bytes have at most one refusal but that for memory: no document, or one key.
pub fn one_refusal()
    ensures { (bytes : List ℕ) (r s : Failure PropertyFault) → r ≢ OutOfMemory → s ≢ OutOfMemory → IsPropertyRefusal bytes r → IsPropertyRefusal bytes s → r ≡ s }
{}

/// The bytes of a property file have no refusal but that for memory.
pub fn automaton_or_refusal()
    ensures { (bytes : List ℕ) (a : Automaton) (r : Failure PropertyFault) → r ≢ OutOfMemory → IsPropertyFile bytes a → IsPropertyRefusal bytes r → ⊥ }
{}
