//! The classes of `java/lang` among the base stubs, but for the exceptions.

ghost use Rattle.std.specs.Prelude.{◌≡◌, map, take, drop};
ghost use Rattle.stub_file.specs.BaseLanguage.{base_language};
ghost use Rattle.stub_file.specs.BaseRead.{base_class};

use crate::base_row::{ABSTRACT, BaseClass, BaseField, BaseMethod, BaseResult, CLASS, METHOD};
use jvm_model::StubArgument;

/// The rows of `java/lang/Object` and `java/lang/String`.
pub(super) fn object_and_string() -> &'static [BaseClass]
    ensures { map base_class result.now ≡ take 2 base_language }
{
    &OBJECT_AND_STRING
}

/// The row of `java/lang/StringBuilder`.
pub(super) fn string_builder() -> &'static [BaseClass]
    ensures { map base_class result.now ≡ take 1 (drop 2 base_language) }
{
    &STRING_BUILDER
}

/// The rows of the other classes of `java/lang`.
pub(super) fn other_classes() -> &'static [BaseClass]
    ensures { map base_class result.now ≡ drop 3 base_language }
{
    &OTHER_CLASSES
}

/// `java/lang/Object` and `java/lang/String`.
const OBJECT_AND_STRING: [BaseClass; 2] = [
    BaseClass {
        name: "java/lang/Object",
        super_class: "",
        methods: &[
            BaseMethod {
                name: "<init>",
                descriptor: "()V",
                returns: &[BaseResult::Void],
                ..METHOD
            },
            BaseMethod {
                name: "equals",
                descriptor: "(Ljava/lang/Object;)Z",
                returns: &[BaseResult::Primitive],
                ..METHOD
            },
            BaseMethod {
                name: "hashCode",
                descriptor: "()I",
                returns: &[BaseResult::Primitive],
                ..METHOD
            },
            BaseMethod {
                name: "toString",
                descriptor: "()Ljava/lang/String;",
                ..ABSTRACT
            },
        ],
        ..CLASS
    },
    BaseClass {
        name: "java/lang/String",
        interfaces: &[
            "java/lang/CharSequence",
            "java/lang/Comparable",
            "java/io/Serializable",
        ],
        methods: &[
            BaseMethod {
                name: "length",
                descriptor: "()I",
                returns: &[BaseResult::Primitive],
                ..METHOD
            },
            BaseMethod {
                name: "isEmpty",
                descriptor: "()Z",
                returns: &[BaseResult::Primitive],
                ..METHOD
            },
            BaseMethod {
                name: "hashCode",
                descriptor: "()I",
                returns: &[BaseResult::Primitive],
                ..METHOD
            },
            BaseMethod {
                name: "equals",
                descriptor: "(Ljava/lang/Object;)Z",
                returns: &[BaseResult::Primitive],
                ..METHOD
            },
            BaseMethod {
                name: "charAt",
                descriptor: "(I)C",
                returns: &[BaseResult::Primitive],
                throws: &["java/lang/StringIndexOutOfBoundsException"],
                ..METHOD
            },
            BaseMethod {
                name: "compareTo",
                descriptor: "(Ljava/lang/String;)I",
                returns: &[BaseResult::Primitive],
                throws: &["java/lang/NullPointerException"],
                ..METHOD
            },
            BaseMethod {
                name: "toString",
                descriptor: "()Ljava/lang/String;",
                returns: &[BaseResult::This],
                ..METHOD
            },
            BaseMethod {
                name: "substring",
                descriptor: "(I)Ljava/lang/String;",
                returns: &[BaseResult::This, BaseResult::New("java/lang/String")],
                throws: &["java/lang/StringIndexOutOfBoundsException"],
                ..METHOD
            },
            BaseMethod {
                name: "substring",
                descriptor: "(II)Ljava/lang/String;",
                returns: &[BaseResult::This, BaseResult::New("java/lang/String")],
                throws: &["java/lang/StringIndexOutOfBoundsException"],
                ..METHOD
            },
            BaseMethod {
                name: "valueOf",
                descriptor: "(C)Ljava/lang/String;",
                is_static: true,
                returns: &[BaseResult::New("java/lang/String")],
                ..METHOD
            },
        ],
        ..CLASS
    },
];

/// `java/lang/StringBuilder`.
const STRING_BUILDER: [BaseClass; 1] = [BaseClass {
    name: "java/lang/StringBuilder",
    interfaces: &["java/lang/CharSequence", "java/io/Serializable"],
    methods: &[
        BaseMethod {
            name: "<init>",
            descriptor: "()V",
            returns: &[BaseResult::Void],
            ..METHOD
        },
        BaseMethod {
            name: "<init>",
            descriptor: "(Ljava/lang/String;)V",
            returns: &[BaseResult::Void],
            throws: &["java/lang/NullPointerException"],
            ..METHOD
        },
        BaseMethod {
            name: "append",
            descriptor: "(Ljava/lang/String;)Ljava/lang/StringBuilder;",
            returns: &[BaseResult::This],
            ..METHOD
        },
        BaseMethod {
            name: "append",
            descriptor: "(I)Ljava/lang/StringBuilder;",
            returns: &[BaseResult::This],
            ..METHOD
        },
        BaseMethod {
            name: "append",
            descriptor: "(J)Ljava/lang/StringBuilder;",
            returns: &[BaseResult::This],
            ..METHOD
        },
        BaseMethod {
            name: "append",
            descriptor: "(C)Ljava/lang/StringBuilder;",
            returns: &[BaseResult::This],
            ..METHOD
        },
        BaseMethod {
            name: "append",
            descriptor: "(Z)Ljava/lang/StringBuilder;",
            returns: &[BaseResult::This],
            ..METHOD
        },
        BaseMethod {
            name: "append",
            descriptor: "(F)Ljava/lang/StringBuilder;",
            returns: &[BaseResult::This],
            ..METHOD
        },
        BaseMethod {
            name: "append",
            descriptor: "(D)Ljava/lang/StringBuilder;",
            returns: &[BaseResult::This],
            ..METHOD
        },
        BaseMethod {
            name: "length",
            descriptor: "()I",
            returns: &[BaseResult::Primitive],
            ..METHOD
        },
        BaseMethod {
            name: "charAt",
            descriptor: "(I)C",
            returns: &[BaseResult::Primitive],
            throws: &["java/lang/StringIndexOutOfBoundsException"],
            ..METHOD
        },
        BaseMethod {
            name: "toString",
            descriptor: "()Ljava/lang/String;",
            returns: &[BaseResult::New("java/lang/String")],
            ..METHOD
        },
    ],
    ..CLASS
}];

/// The other classes of `java/lang`.
const OTHER_CLASSES: [BaseClass; 4] = [
    BaseClass {
        name: "java/lang/Class",
        interfaces: &["java/io/Serializable"],
        methods: &[BaseMethod {
            name: "desiredAssertionStatus",
            descriptor: "()Z",
            returns: &[BaseResult::Primitive],
            ..METHOD
        }],
        ..CLASS
    },
    BaseClass {
        name: "java/lang/Enum",
        interfaces: &["java/lang/Comparable", "java/io/Serializable"],
        methods: &[
            BaseMethod {
                name: "<init>",
                descriptor: "(Ljava/lang/String;I)V",
                returns: &[BaseResult::Void],
                keeps: &[StubArgument::Argument(1)],
                ..METHOD
            },
            BaseMethod {
                name: "name",
                descriptor: "()Ljava/lang/String;",
                returns: &[BaseResult::Kept, BaseResult::Null],
                ..METHOD
            },
            BaseMethod {
                name: "toString",
                descriptor: "()Ljava/lang/String;",
                returns: &[BaseResult::Kept, BaseResult::Null],
                ..METHOD
            },
            BaseMethod {
                name: "ordinal",
                descriptor: "()I",
                returns: &[BaseResult::Primitive],
                ..METHOD
            },
        ],
        ..CLASS
    },
    BaseClass {
        name: "java/lang/System",
        methods: &[
            BaseMethod {
                name: "currentTimeMillis",
                descriptor: "()J",
                is_static: true,
                returns: &[BaseResult::Primitive],
                ..METHOD
            },
            BaseMethod {
                name: "nanoTime",
                descriptor: "()J",
                is_static: true,
                returns: &[BaseResult::Primitive],
                ..METHOD
            },
            BaseMethod {
                name: "exit",
                descriptor: "(I)V",
                is_static: true,
                returns: &[BaseResult::Void],
                throws: &["java/lang/SecurityException"],
                ..METHOD
            },
        ],
        fields: &[
            BaseField {
                name: "out",
                descriptor: "Ljava/io/PrintStream;",
                holds: "java/io/PrintStream",
            },
            BaseField {
                name: "err",
                descriptor: "Ljava/io/PrintStream;",
                holds: "java/io/PrintStream",
            },
        ],
        ..CLASS
    },
    BaseClass {
        name: "java/lang/Thread",
        interfaces: &["java/lang/Runnable"],
        ..CLASS
    },
];
