//! The class of a method's result, by the descriptor.

use crate::seen::see;
use jvm_model::result_class::result_class;
use std::process::Abort;

/// Looks for the class of the result of a descriptor.
fn look_for_class(rt: &impl Abort, descriptor: &str, want: Option<&[u8]>) {
    let class = result_class(descriptor.as_bytes());
    see(rt, (descriptor, class), (descriptor, want));
}

#[test]
fn results_have_classes(rt: HostRuntime) {
    look_for_class(&rt, "(ILA;)LB;", Some(b"B"));
    look_for_class(&rt, "(LA);)LB;", Some(b"B"));
    look_for_class(&rt, "()I", None);
    look_for_class(&rt, "(LA;)V", None);
    look_for_class(&rt, "()[LB;", None);
}
