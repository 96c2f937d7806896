//! The method with the least number of those that a class inherits from its superinterfaces (JVMS 5.4.3.3).

ghost use Rattle.std.specs.Prelude.{◌⊎◌};
ghost use Rattle.jvm_model.specs.Lookups.{lent_signature};
ghost use Rattle.jvm_model.specs.Resolution.{IsLeastInherited};
ghost use Rattle.program_model.specs.Numbers.{name_at, IsClassNumber};
ghost use Rattle.hierarchy.specs.Searches.{Finds, IsLeast, IsNumberOf};

use crate::sought::Any;
use crate::superinterfaces::offered;
use crate::upward::{Fold, fold_upward};
use jvm_model::{ClassNo, MethodNo, Signature};
use program_model::program::Program;

/// Of two methods the one with the lower number; where there is only one, that one.
fn lower(one: Option<MethodNo>, other: Option<MethodNo>) -> Option<MethodNo>
    ensures { IsLeast (λ n. IsNumberOf one n ⊎ IsNumberOf other n) result }
{
    let Some(first) = one else {
        return other;
    };
    let Some(second) = other else {
        return one;
    };
    if second < first { other } else { one }
}

/// The method with the least number of those of a name and a descriptor that superinterfaces offer, class by class.
#[derive(Clone, Copy)]
struct LeastOffered<'a> {
    signature: Signature<'a>,
}

impl Fold for LeastOffered<'_> {
    ghost use Rattle.std.specs.Prelude.{◌⊎◌};
    ghost use Rattle.jvm_model.specs.Lookups.{lent_signature};
    ghost use Rattle.hierarchy.specs.Searches.{IsLeast, IsNumberOf, OffersThrough};

    type Value = Option<MethodNo>;

    ghost makes = { λ x p c value. IsLeast (λ n. IsNumberOf value n ⊎ OffersThrough p (lent_signature x.signature) (λ k m. Unit {0}) c n) };

    fn at(&self, program: &Program, class: ClassNo, value: Option<MethodNo>) -> Option<MethodNo> {
        program.well_formed();
        let mut least = value;
        let interfaces = program.through_interfaces(class);
        for number in interfaces {
            let interface = ClassNo(*number);
            least = lower(least, offered(program, interface, self.signature, &Any));
        }
        least
    }
}

/// Of the methods that a class inherits from its superinterfaces the one with the least number.
///
/// It looks once at each superinterface of each class upward, so time is linear in them.
pub(crate) fn least_inherited(
    program: &Program,
    class: ClassNo,
    signature: Signature<'_>,
) -> Option<MethodNo>
    requires { IsClassNumber program.now class.0 }
    ensures { Finds (IsLeastInherited program.now (name_at program.now class.0) (lent_signature signature.entry)) result }
{
    program.well_formed();
    fold_upward(program, class, &LeastOffered { signature }, None)
}
