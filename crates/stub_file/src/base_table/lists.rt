//! The list of `java/util` among the base stubs, and `java/lang/Throwable`.

ghost use Rattle.std.specs.Prelude.{◌≡◌, map};
ghost use Rattle.stub_file.specs.BaseLists.{base_lists};
ghost use Rattle.stub_file.specs.BaseRead.{base_class};

use crate::base_row::{ABSTRACT, BaseClass, BaseMethod, BaseResult, CLASS, METHOD};
use jvm_model::StubArgument;

/// The rows of the lists and of `java/lang/Throwable`.
pub(super) fn rows() -> &'static [BaseClass]
    ensures { map base_class result.now ≡ base_lists }
{
    &LISTS
}

/// Lists of `java/util`, and `java/lang/Throwable`.
const LISTS: [BaseClass; 3] = [
    BaseClass {
        name: "java/util/ArrayList",
        interfaces: &[
            "java/util/List",
            "java/io/Serializable",
            "java/lang/Cloneable",
        ],
        methods: &[
            BaseMethod {
                name: "<init>",
                descriptor: "()V",
                returns: &[BaseResult::Void],
                ..METHOD
            },
            BaseMethod {
                name: "add",
                descriptor: "(Ljava/lang/Object;)Z",
                returns: &[BaseResult::Primitive],
                keeps: &[StubArgument::Argument(1)],
                ..METHOD
            },
            BaseMethod {
                name: "get",
                descriptor: "(I)Ljava/lang/Object;",
                returns: &[BaseResult::Kept, BaseResult::Null],
                throws: &["java/lang/IndexOutOfBoundsException"],
                ..METHOD
            },
            BaseMethod {
                name: "size",
                descriptor: "()I",
                returns: &[BaseResult::Primitive],
                ..METHOD
            },
            BaseMethod {
                name: "isEmpty",
                descriptor: "()Z",
                returns: &[BaseResult::Primitive],
                ..METHOD
            },
            BaseMethod {
                name: "iterator",
                descriptor: "()Ljava/util/Iterator;",
                returns: &[BaseResult::New("java/util/ArrayList$Itr")],
                ..METHOD
            },
            BaseMethod {
                name: "equals",
                descriptor: "(Ljava/lang/Object;)Z",
                ..ABSTRACT
            },
            BaseMethod {
                name: "hashCode",
                descriptor: "()I",
                ..ABSTRACT
            },
        ],
        ..CLASS
    },
    BaseClass {
        name: "java/util/ArrayList$Itr",
        interfaces: &["java/util/Iterator"],
        methods: &[
            BaseMethod {
                name: "hasNext",
                descriptor: "()Z",
                returns: &[BaseResult::Primitive],
                ..METHOD
            },
            BaseMethod {
                name: "next",
                descriptor: "()Ljava/lang/Object;",
                returns: &[BaseResult::Kept, BaseResult::Null],
                throws: &[
                    "java/util/NoSuchElementException",
                    "java/util/ConcurrentModificationException",
                ],
                ..METHOD
            },
        ],
        ..CLASS
    },
    BaseClass {
        name: "java/lang/Throwable",
        interfaces: &["java/io/Serializable"],
        methods: &[
            BaseMethod {
                name: "<init>",
                descriptor: "()V",
                returns: &[BaseResult::Void],
                ..METHOD
            },
            BaseMethod {
                name: "<init>",
                descriptor: "(Ljava/lang/String;)V",
                returns: &[BaseResult::Void],
                keeps: &[StubArgument::Argument(1)],
                ..METHOD
            },
            BaseMethod {
                name: "<init>",
                descriptor: "(Ljava/lang/String;Ljava/lang/Throwable;)V",
                returns: &[BaseResult::Void],
                keeps: &[StubArgument::Argument(1), StubArgument::Argument(2)],
                ..METHOD
            },
            BaseMethod {
                name: "getCause",
                descriptor: "()Ljava/lang/Throwable;",
                returns: &[BaseResult::Kept, BaseResult::Null],
                ..METHOD
            },
            BaseMethod {
                name: "addSuppressed",
                descriptor: "(Ljava/lang/Throwable;)V",
                returns: &[BaseResult::Void],
                throws: &[
                    "java/lang/IllegalArgumentException",
                    "java/lang/NullPointerException",
                ],
                keeps: &[StubArgument::Argument(1)],
                ..METHOD
            },
        ],
        ..CLASS
    },
];
