//! The streams of `java/io` among the base stubs.

ghost use Rattle.std.specs.Prelude.{◌≡◌, map};
ghost use Rattle.stub_file.specs.BaseStreams.{base_streams};
ghost use Rattle.stub_file.specs.BaseRead.{base_class};

use crate::base_row::{ABSTRACT, BaseClass, BaseMethod, BaseResult, CLASS, METHOD};

/// The rows of the streams.
pub(super) fn rows() -> &'static [BaseClass]
    ensures { map base_class result.now ≡ base_streams }
{
    &STREAMS
}

/// The streams of `java/io`.
const STREAMS: [BaseClass; 6] = [
    BaseClass {
        name: "java/io/InputStream",
        interfaces: &["java/io/Closeable"],
        methods: &[
            BaseMethod {
                name: "<init>",
                descriptor: "()V",
                returns: &[BaseResult::Void],
                ..METHOD
            },
            BaseMethod {
                name: "close",
                descriptor: "()V",
                returns: &[BaseResult::Void],
                ..METHOD
            },
            BaseMethod {
                name: "read",
                descriptor: "()I",
                ..ABSTRACT
            },
            BaseMethod {
                name: "read",
                descriptor: "([B)I",
                ..ABSTRACT
            },
        ],
        ..CLASS
    },
    BaseClass {
        name: "java/io/FileInputStream",
        super_class: "java/io/InputStream",
        methods: &[
            BaseMethod {
                name: "<init>",
                descriptor: "(Ljava/lang/String;)V",
                returns: &[BaseResult::Void],
                throws: &[
                    "java/io/FileNotFoundException",
                    "java/lang/NullPointerException",
                    "java/lang/SecurityException",
                ],
                ..METHOD
            },
            BaseMethod {
                name: "read",
                descriptor: "()I",
                returns: &[BaseResult::Primitive],
                throws: &["java/io/IOException"],
                ..METHOD
            },
            BaseMethod {
                name: "available",
                descriptor: "()I",
                returns: &[BaseResult::Primitive],
                throws: &["java/io/IOException"],
                ..METHOD
            },
            BaseMethod {
                name: "read",
                descriptor: "([B)I",
                returns: &[BaseResult::Primitive],
                throws: &["java/io/IOException", "java/lang/NullPointerException"],
                ..METHOD
            },
            BaseMethod {
                name: "close",
                descriptor: "()V",
                returns: &[BaseResult::Void],
                throws: &["java/io/IOException"],
                ..METHOD
            },
        ],
        ..CLASS
    },
    BaseClass {
        name: "java/io/OutputStream",
        interfaces: &["java/io/Closeable", "java/io/Flushable"],
        methods: &[
            BaseMethod {
                name: "<init>",
                descriptor: "()V",
                returns: &[BaseResult::Void],
                ..METHOD
            },
            BaseMethod {
                name: "flush",
                descriptor: "()V",
                returns: &[BaseResult::Void],
                ..METHOD
            },
            BaseMethod {
                name: "close",
                descriptor: "()V",
                returns: &[BaseResult::Void],
                ..METHOD
            },
            BaseMethod {
                name: "write",
                descriptor: "(I)V",
                ..ABSTRACT
            },
            BaseMethod {
                name: "write",
                descriptor: "([B)V",
                ..ABSTRACT
            },
        ],
        ..CLASS
    },
    BaseClass {
        name: "java/io/FileOutputStream",
        super_class: "java/io/OutputStream",
        methods: &[
            BaseMethod {
                name: "<init>",
                descriptor: "(Ljava/lang/String;)V",
                returns: &[BaseResult::Void],
                throws: &[
                    "java/io/FileNotFoundException",
                    "java/lang/NullPointerException",
                    "java/lang/SecurityException",
                ],
                ..METHOD
            },
            BaseMethod {
                name: "write",
                descriptor: "(I)V",
                returns: &[BaseResult::Void],
                throws: &["java/io/IOException"],
                ..METHOD
            },
            BaseMethod {
                name: "close",
                descriptor: "()V",
                returns: &[BaseResult::Void],
                throws: &["java/io/IOException"],
                ..METHOD
            },
            BaseMethod {
                name: "write",
                descriptor: "([B)V",
                returns: &[BaseResult::Void],
                throws: &["java/io/IOException", "java/lang/NullPointerException"],
                ..METHOD
            },
        ],
        ..CLASS
    },
    BaseClass {
        name: "java/io/FilterOutputStream",
        super_class: "java/io/OutputStream",
        ..CLASS
    },
    BaseClass {
        name: "java/io/PrintStream",
        super_class: "java/io/FilterOutputStream",
        methods: &[
            BaseMethod {
                name: "println",
                descriptor: "()V",
                returns: &[BaseResult::Void],
                ..METHOD
            },
            BaseMethod {
                name: "println",
                descriptor: "(Ljava/lang/String;)V",
                returns: &[BaseResult::Void],
                ..METHOD
            },
            BaseMethod {
                name: "println",
                descriptor: "(I)V",
                returns: &[BaseResult::Void],
                ..METHOD
            },
            BaseMethod {
                name: "println",
                descriptor: "(J)V",
                returns: &[BaseResult::Void],
                ..METHOD
            },
            BaseMethod {
                name: "println",
                descriptor: "(C)V",
                returns: &[BaseResult::Void],
                ..METHOD
            },
            BaseMethod {
                name: "println",
                descriptor: "(Z)V",
                returns: &[BaseResult::Void],
                ..METHOD
            },
            BaseMethod {
                name: "println",
                descriptor: "(F)V",
                returns: &[BaseResult::Void],
                ..METHOD
            },
            BaseMethod {
                name: "println",
                descriptor: "(D)V",
                returns: &[BaseResult::Void],
                ..METHOD
            },
            BaseMethod {
                name: "print",
                descriptor: "(Ljava/lang/String;)V",
                returns: &[BaseResult::Void],
                ..METHOD
            },
            BaseMethod {
                name: "print",
                descriptor: "(I)V",
                returns: &[BaseResult::Void],
                ..METHOD
            },
            BaseMethod {
                name: "print",
                descriptor: "(J)V",
                returns: &[BaseResult::Void],
                ..METHOD
            },
            BaseMethod {
                name: "print",
                descriptor: "(C)V",
                returns: &[BaseResult::Void],
                ..METHOD
            },
            BaseMethod {
                name: "print",
                descriptor: "(Z)V",
                returns: &[BaseResult::Void],
                ..METHOD
            },
            BaseMethod {
                name: "print",
                descriptor: "(F)V",
                returns: &[BaseResult::Void],
                ..METHOD
            },
            BaseMethod {
                name: "print",
                descriptor: "(D)V",
                returns: &[BaseResult::Void],
                ..METHOD
            },
        ],
        ..CLASS
    },
];
