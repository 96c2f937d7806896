//! What a sound class file says at its indices. The readers in `lookup` answer `None` where an index leads
//! elsewhere; these need no such answer, since a sound class file has what it refers to (JVMS 4.2 to 4.7).

ghost use Rattle.std.specs.Prelude.{codes, ◌≡◌, ◌⊎◌, ◌∷◌, [], true, false, Some, Contains, IfNone, IfSome};
ghost use Rattle.std.specs.List.{list_any};
ghost use Rattle.jvm_model.specs.declared.grammar.Grammar.TheVariants.{ClassOrArray};
ghost use Rattle.jvm_model.specs.declared.pool.EntryKind.TheVariants as kinds;
ghost use Rattle.jvm_model.specs.Layout.{HasFirstCode, IsOnlyCode};
ghost use Rattle.jvm_model.specs.Lookups.{lent_reference, lent_signature, text_at, class_name_at, signature_at, method_at};
ghost use Rattle.jvm_model.specs.Names.{IsClassName};
ghost use Rattle.jvm_model.specs.Soundness.{is_code, leads_to, wants_code, IsIn, IsSoundClass};

use crate::class_file::{Attribute, ClassFile, Member};
use crate::layout::is_code;
use crate::lookup::{MemberReference, Signature, class_name_at, method_at, signature_at, text_at};
use crate::pool::PoolEntry;

/// The bytes of the text at an index that leads to one (JVMS 4.4.7).
pub fn text(class: &ClassFile, index: u16) -> &[u8]
    requires { leads_to class.now.pool (kinds.Text ∷ []) index ≡ true }
    ensures { text_at class.now.pool index ≡ Some result.now }
{
    text_at(class.pool.as_slice(), index).unwrap()
}

/// The name of the class, the interface or the array at an index that leads to a Class entry of a sound
/// class file (JVMS 4.4.1).
pub fn class_name(class: &ClassFile, index: u16) -> &[u8]
    requires sound { IsSoundClass class.now }
    requires kind { leads_to class.now.pool (kinds.Class ∷ []) index ≡ true }
    ensures named { class_name_at class.now.pool index ≡ Some result.now }
    ensures grammar { IsIn ClassOrArray result.now }
{
    class_name_at(class.pool.as_slice(), index).unwrap()
}

/// The name of the class itself (JVMS 4.1).
pub fn this_class_name(class: &ClassFile) -> &[u8]
    requires { IsSoundClass class.now }
    ensures named { class_name_at class.now.pool class.now.this_class ≡ Some result.now }
    ensures grammar { IsClassName result.now }
{
    class_name(class, class.this_class)
}

/// The name of the superclass; `None` for java/lang/Object, which has none (JVMS 4.1).
pub fn superclass_name(class: &ClassFile) -> Option<&[u8]>
    requires { IsSoundClass class.now }
    ensures named { IfSome result (λ name. class_name_at class.now.pool class.now.super_class ≡ Some name.now) }
    ensures grammar { IfSome result (λ name. IsClassName name.now) }
    ensures none { IfNone result ((class.now.super_class ≡ 0)
        × (class_name_at class.now.pool class.now.this_class ≡ Some (codes "java/lang/Object"))) }
{
    class_name_at(class.pool.as_slice(), class.super_class)
}

/// The name and the descriptor of a field or a method of the class (JVMS 4.5, 4.6).
pub fn member_signature<'a>(class: &'a ClassFile, member: &Member) -> Signature<'a>
    requires sound { IsSoundClass class.now }
    requires there { Contains class.now.fields member.now ⊎ Contains class.now.methods member.now }
    ensures name { text_at class.now.pool member.now.name ≡ Some result.name.now }
    ensures descriptor { text_at class.now.pool member.now.descriptor ≡ Some result.descriptor.now }
{
    Signature {
        name: text(class, member.name),
        descriptor: text(class, member.descriptor),
    }
}

/// The Code attribute of a method of the class: its only one; `None` exactly where the method is native or
/// abstract (JVMS 4.7.3).
pub fn code_of<'a>(class: &ClassFile, method: &'a Member) -> Option<&'a Attribute>
    requires sound { IsSoundClass class.now }
    requires there { Contains class.now.methods method.now }
    ensures code { IfSome result (λ code. IsOnlyCode class.now.pool method.now.attributes code.now) }
    ensures wanted { IfSome result (λ _. wants_code method.now ≡ true) }
    ensures none { IfNone result (wants_code method.now ≡ false) }
{
    first_code(class.pool.as_slice(), method.attributes.as_slice())
}

/// The first attribute named `Code`, if there is one (JVMS 4.7.3).
pub fn first_code<'a>(pool: &[PoolEntry], attributes: &'a [Attribute]) -> Option<&'a Attribute>
    ensures first { IfSome result (λ code. HasFirstCode pool.now attributes.now code.now) }
    ensures none { IfNone result (list_any (is_code pool.now) attributes.now ≡ false) }
{
    for attribute in attributes {
        if is_code(pool, attribute) {
            return Some(attribute);
        }
    }
    None
}

/// The name and the descriptor at an index that leads to a NameAndType entry (JVMS 4.4.6).
pub fn signature(class: &ClassFile, index: u16) -> Signature<'_>
    requires sound { IsSoundClass class.now }
    requires kind { leads_to class.now.pool (kinds.NameAndType ∷ []) index ≡ true }
    ensures { signature_at class.now.pool index ≡ Some (lent_signature result) }
{
    signature_at(class.pool.as_slice(), index).unwrap()
}

/// The method that a Methodref entry names (JVMS 4.4.2).
pub fn method(class: &ClassFile, index: u16) -> MemberReference<'_>
    requires sound { IsSoundClass class.now }
    requires kind { leads_to class.now.pool (kinds.Method ∷ []) index ≡ true }
    ensures { method_at class.now.pool index ≡ Some (lent_reference result) }
{
    method_at(class.pool.as_slice(), index).unwrap()
}
