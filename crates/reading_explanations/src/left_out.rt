//! What this profile leaves out of ilasm, with what to write instead: the tables of docs/PROFILE.md.

use crate::tables::Entry;

/// Words of assemblies, classes, fields and methods that are left out without a replacement.
pub(crate) static NEEDLESS: &str =
    ".corflags .custom .data .emitbyte .export .file .imagebase .language .line .module \
    .mresource .pack .param .permission .permissionset .size .stackreserve .subsystem .vtentry \
    .vtfixup aggressiveinlining at beforefieldinit constrained. default final forwardref in \
    initonly internalcall literal marshal noinlining nooptimization notserialized opt out \
    preservesig readonly. reqsecobj sealed serializable strict synchronized tail. unaligned. \
    unmanagedexp volatile.";

/// Words of assemblies, classes, fields and methods, and of types.
pub(crate) static WORDS: &[Entry] = &[
    Entry {
        words: ".ver .hash .publickey .publickeytoken .culture .locale",
        advice: "leave the braces of an assembly empty",
    },
    Entry {
        words: ".namespace",
        advice: "write the whole name after `.class`, as `N.P`",
    },
    Entry {
        words: ".property .event .get .set .addon .removeon",
        advice: "write methods, as `get_X` and `set_X`, without `specialname`",
    },
    Entry {
        words: ".override",
        advice: "write a virtual method of the same name",
    },
    Entry {
        words: ".cctor",
        advice: "write a static method that `Main` calls first",
    },
    Entry {
        words: ".try",
        advice: "write the code without handlers: a fault ends its thread",
    },
    Entry {
        words: "... vararg",
        advice: "write an `object[]` as the last parameter",
    },
    Entry {
        words: "ldc.i4. ldarg. ldloc. stloc.",
        advice: "write the number as an operand, as `ldloc 4`",
    },
    Entry {
        words: "private family assembly famandassem famorassem privatescope",
        advice: "write `public`",
    },
    Entry {
        words: "nested",
        advice: "write it as a class of its own, outside of the other",
    },
    Entry {
        words: "sequential explicit",
        advice: "write `auto`",
    },
    Entry {
        words: "unicode autochar",
        advice: "write `ansi`",
    },
    Entry {
        words: "pinvokeimpl runtime unmanaged",
        advice: "write `cil managed`, and code",
    },
    Entry {
        words: "bool char int8 int16 uint8 uint16 byte short int",
        advice: "write `int32`",
    },
    Entry {
        words: "uint32 uint64 unsigned native",
        advice: "write `int32` or `int64`",
    },
    Entry {
        words: "long",
        advice: "write `int64`",
    },
    Entry {
        words: "float32 float64 float double",
        advice: "write `int32` or `int64`: there are no floating-point numbers",
    },
    Entry {
        words: "valuetype",
        advice: "write `class`: there are no value types",
    },
    Entry {
        words: "Object System.Object",
        advice: "write `object`",
    },
    Entry {
        words: "String System.String",
        advice: "write `string`",
    },
];

/// Words of other languages where an instruction is expected.
pub(crate) static FOREIGN: &[Entry] = &[
    Entry {
        words: "if else then elif",
        advice: "write `brtrue` or `brfalse` and a label, after the condition",
    },
    Entry {
        words: "while for do loop foreach",
        advice: "write a label at the beginning of the loop, and a branch back to it",
    },
    Entry {
        words: "goto jump",
        advice: "write `br`",
    },
    Entry {
        words: "return",
        advice: "write `ret`",
    },
    Entry {
        words: "new",
        advice: "write `newobj`",
    },
    Entry {
        words: "lock synchronized",
        advice: "write calls of `[mscorlib]System.Threading.Monitor::Enter` and `Exit`",
    },
    Entry {
        words: "print println echo",
        advice: "write `call void [mscorlib]System.Console::WriteLine(int32)`",
    },
];

/// Names of instructions, in their long form.
pub(crate) static INSTRUCTIONS: &[Entry] = &[
    Entry {
        words: "throw rethrow leave endfinally endfault endfilter try catch finally",
        advice: "write the code without handlers: a fault ends its thread",
    },
    Entry {
        words: "brnull brzero",
        advice: "write `brfalse`",
    },
    Entry {
        words: "brinst",
        advice: "write `brtrue`",
    },
    Entry {
        words: "bne",
        advice: "write `bne.un`",
    },
    Entry {
        words: "cgt.un",
        advice: "write `cgt`; after `ldnull` write `ceq ldc.i4.0 ceq`",
    },
    Entry {
        words: "ldc.i4.M1",
        advice: "write `ldc.i4.m1`",
    },
    Entry {
        words: "ldc.r4 ldc.r8",
        advice: "write `ldc.i4` or `ldc.i8`: there are no floating-point numbers",
    },
    Entry {
        words: "conv.",
        advice: "write `conv.i4` or `conv.i8`; for a byte write `ldc.i4 255 and`",
    },
    Entry {
        words: "box unbox unbox.any initobj ldobj stobj cpobj sizeof",
        advice: "write a class with a field: there are no value types",
    },
    Entry {
        words: "ldarga ldloca ldflda ldsflda ldelema ldind. stind.",
        advice: "write an array or an object that holds the value: there are no addresses",
    },
    Entry {
        words: "ldelem ldelem.",
        advice: "write `ldelem.i4`, `ldelem.i8` or `ldelem.ref`",
    },
    Entry {
        words: "stelem stelem.",
        advice: "write `stelem.i4`, `stelem.i8` or `stelem.ref`",
    },
    Entry {
        words: "ldftn ldvirtftn calli",
        advice: "write an interface with one method, and `callvirt`",
    },
    Entry {
        words: "jmp",
        advice: "write `call` and `ret`",
    },
    Entry {
        words: "break",
        advice: "write `nop`",
    },
    Entry {
        words: "ldtoken localloc cpblk initblk arglist ckfinite",
        advice: "this profile has nothing in its place",
    },
];

/// Marks and the beginnings of names with which no token begins.
pub(crate) static MARKS: &[Entry] = &[
    Entry {
        words: "'",
        advice: "write a string between two `\"`, and a name without quotes",
    },
    Entry {
        words: "< > ` !",
        advice: "write `object` and `castclass`: there are no generics, and a name has letters, digits, `_` and `.` alone",
    },
    Entry {
        words: "$ @ ?",
        advice: "write a name of letters, digits, `_` and `.`",
    },
    Entry {
        words: "#",
        advice: "leave this line out, or write `//` before a comment",
    },
    Entry {
        words: "/",
        advice: "write `//` before a comment, and a nested class as a class of its own",
    },
    Entry {
        words: "+",
        advice: "write one literal, and a number without a sign",
    },
    Entry {
        words: "-",
        advice: "write the digits directly after the `-`",
    },
    Entry {
        words: "=",
        advice: "leave the value out: a local gets it by `stloc` in the code, a static field by `stsfld` at the beginning of `Main`",
    },
    Entry {
        words: "& *",
        advice: "write an array or an object that holds the value: there are no addresses",
    },
    Entry {
        words: ";",
        advice: "leave it out: a space or the end of a line is enough",
    },
];
