//! The methods of superinterfaces that are maximally specific and not abstract (JVMS 5.4.3.3).

ghost use Rattle.std.specs.Prelude.{◌≡◌, ◌↔◌, Some, slice_get, IsTrue};
ghost use Rattle.jvm_model.specs.Lookups.{lent_signature};
ghost use Rattle.jvm_model.specs.Programs.{Method};
ghost use Rattle.jvm_model.specs.Resolution.{IsOnlyDefault};
ghost use Rattle.program_model.specs.Numbers.{name_at, IsClassNumber, IsMethodNumber};
ghost use Rattle.hierarchy.specs.Searches.{Finds, AreDefaults, IsLowestConcrete};

use crate::choice::Choice;
use crate::classes::is_proper_subtype;
use crate::methods::{class_of, is_abstract};
use crate::sought::Sought;
use crate::superinterfaces::first_inherited;
use jvm_model::{ClassNo, MethodNo, Signature};
use program_model::program::Program;

/// A method of a proper subtype of a class.
#[derive(Clone, Copy)]
struct InSubtype {
    upper: ClassNo,
}

impl Sought for InSubtype {
    ghost use Rattle.jvm_model.specs.Subtypes.{IsProperSubtype};

    ghost fits = { λ x p s. IsClassNumber p x.upper.0 };

    ghost takes = { λ x p n m. IsProperSubtype p m.class (name_at p x.upper.0) };

    fn accepts(&self, program: &Program, method: MethodNo) -> bool {
        is_proper_subtype(program, class_of(program, method), self.upper)
    }
}

/// A method that is maximally specific among those of its name and descriptor that a class inherits, and not abstract. One number
/// may be left out.
#[derive(Clone, Copy)]
struct LowestConcrete<'a> {
    class: ClassNo,
    signature: Signature<'a>,
    except: Option<MethodNo>,
}

impl Sought for LowestConcrete<'_> {
    ghost use Rattle.hierarchy.specs.Searches.{IsOtherDefault};

    ghost fits = { λ x p s. IsClassNumber p x.class.0 };

    ghost takes = { λ x p. IsOtherDefault p (name_at p x.class.0) (lent_signature x.signature) x.except };

    fn accepts(&self, program: &Program, method: MethodNo) -> bool {
        self.except != Some(method)
            && is_lowest_concrete(program, self.class, self.signature, method)
    }
}

/// Whether a method is not abstract, and no method of the name and descriptor that the class inherits is declared in a subtype of
/// its class.
fn is_lowest_concrete(
    program: &Program,
    class: ClassNo,
    signature: Signature<'_>,
    method: MethodNo,
) -> bool
    requires class { IsClassNumber program.now class.0 }
    requires method { IsMethodNumber program.now method.0 }
    ensures { (m : Method) → slice_get program.now.methods method.0 ≡ Some m
        → IsTrue result ↔ IsLowestConcrete program.now (name_at program.now class.0) (lent_signature signature.entry) m }
{
    if is_abstract(program, method) {
        return false;
    }
    let below = InSubtype {
        upper: class_of(program, method),
    };
    first_inherited(program, class, signature, &below).is_none()
}

/// The methods of superinterfaces of a class that are maximally specific and not abstract: none, the only one, or several
/// (JVMS 5.4.3.3).
///
/// Time is linear in the superinterfaces for each of their methods of the name and descriptor that is not abstract.
pub(crate) fn find_defaults(program: &Program, class: ClassNo, signature: Signature<'_>) -> Choice
    requires { IsClassNumber program.now class.0 }
    ensures { AreDefaults program.now (name_at program.now class.0) (lent_signature signature.entry) result }
{
    let any = LowestConcrete {
        class,
        signature,
        except: None,
    };
    let Some(first) = first_inherited(program, class, signature, &any) else {
        return Choice::Nothing;
    };
    let other = LowestConcrete {
        class,
        signature,
        except: Some(first),
    };
    match first_inherited(program, class, signature, &other) {
        Some(_) => Choice::Several,
        None => Choice::One(first),
    }
}

/// The only method of superinterfaces of a class that is maximally specific and not abstract (JVMS 5.4.3.3).
pub(crate) fn only_default(
    program: &Program,
    class: ClassNo,
    signature: Signature<'_>,
) -> Option<MethodNo>
    requires { IsClassNumber program.now class.0 }
    ensures { Finds (IsOnlyDefault program.now (name_at program.now class.0) (lent_signature signature.entry)) result }
{
    match find_defaults(program, class, signature) {
        Choice::One(method) => Some(method),
        Choice::Nothing => None,
        Choice::Several => None,
    }
}
