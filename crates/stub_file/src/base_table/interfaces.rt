//! The interfaces of the base stubs. All their methods are abstract.

ghost use Rattle.std.specs.Prelude.{◌≡◌, map};
ghost use Rattle.stub_file.specs.BaseInterfaces.{base_interfaces};
ghost use Rattle.stub_file.specs.BaseRead.{base_class};

use crate::base_row::{ABSTRACT, BaseClass, BaseMethod, INTERFACE};

/// The rows of the interfaces.
pub(super) fn rows() -> &'static [BaseClass]
    ensures { map base_class result.now ≡ base_interfaces }
{
    &INTERFACES
}

/// The interfaces.
const INTERFACES: [BaseClass; 12] = [
    BaseClass {
        name: "java/lang/Cloneable",
        ..INTERFACE
    },
    BaseClass {
        name: "java/lang/Runnable",
        methods: &[BaseMethod {
            name: "run",
            descriptor: "()V",
            ..ABSTRACT
        }],
        ..INTERFACE
    },
    BaseClass {
        name: "java/lang/Comparable",
        methods: &[BaseMethod {
            name: "compareTo",
            descriptor: "(Ljava/lang/Object;)I",
            ..ABSTRACT
        }],
        ..INTERFACE
    },
    BaseClass {
        name: "java/lang/CharSequence",
        methods: &[
            BaseMethod {
                name: "length",
                descriptor: "()I",
                ..ABSTRACT
            },
            BaseMethod {
                name: "charAt",
                descriptor: "(I)C",
                ..ABSTRACT
            },
        ],
        ..INTERFACE
    },
    BaseClass {
        name: "java/lang/Iterable",
        methods: &[BaseMethod {
            name: "iterator",
            descriptor: "()Ljava/util/Iterator;",
            ..ABSTRACT
        }],
        ..INTERFACE
    },
    BaseClass {
        name: "java/lang/AutoCloseable",
        methods: &[BaseMethod {
            name: "close",
            descriptor: "()V",
            ..ABSTRACT
        }],
        ..INTERFACE
    },
    BaseClass {
        name: "java/io/Serializable",
        ..INTERFACE
    },
    BaseClass {
        name: "java/io/Closeable",
        interfaces: &["java/lang/AutoCloseable"],
        methods: &[BaseMethod {
            name: "close",
            descriptor: "()V",
            ..ABSTRACT
        }],
        ..INTERFACE
    },
    BaseClass {
        name: "java/io/Flushable",
        methods: &[BaseMethod {
            name: "flush",
            descriptor: "()V",
            ..ABSTRACT
        }],
        ..INTERFACE
    },
    BaseClass {
        name: "java/util/Iterator",
        methods: &[
            BaseMethod {
                name: "hasNext",
                descriptor: "()Z",
                ..ABSTRACT
            },
            BaseMethod {
                name: "next",
                descriptor: "()Ljava/lang/Object;",
                ..ABSTRACT
            },
        ],
        ..INTERFACE
    },
    BaseClass {
        name: "java/util/Collection",
        interfaces: &["java/lang/Iterable"],
        methods: &[
            BaseMethod {
                name: "size",
                descriptor: "()I",
                ..ABSTRACT
            },
            BaseMethod {
                name: "isEmpty",
                descriptor: "()Z",
                ..ABSTRACT
            },
            BaseMethod {
                name: "add",
                descriptor: "(Ljava/lang/Object;)Z",
                ..ABSTRACT
            },
        ],
        ..INTERFACE
    },
    BaseClass {
        name: "java/util/List",
        interfaces: &["java/util/Collection"],
        methods: &[BaseMethod {
            name: "get",
            descriptor: "(I)Ljava/lang/Object;",
            ..ABSTRACT
        }],
        ..INTERFACE
    },
];
