//! What is said of WIT texts, worlds and scripts.
//!
//! Written by checks/explained --write.

/// The rows, a line each, with a tab between two fields.
pub(crate) const ROWS: &str = "\
    wit\tWitReason\t1\tBadToken\t\
    no blank, comment or token begins there, or, directly behind @, no version\t\
    A character that WIT does not have stands there, a comment does not end, or a version is no \
    SemVer.\t\
    Remove it, or close the comment; write a version as `@1.2.3`.\t\
    WIT.md, \"Lexical structure\"\n\
    wit\tWitReason\t2\tUnexpected\t\
    no file goes on with this token, or none ends here; a flag beyond the limit; a borrow in a \
    result; a name in a result that leads to a borrow\t\
    A `;`, a brace or a type is missing before this place, or a keyword is used as a name.\t\
    See what the line says that may come there; write a name that is a keyword as `%type`.\t\
    WIT.md, \"Lexical structure\"\n\
    wit\tWitReason\t3\tDuplicate\t\
    a name that is in its list already, ASCII case aside\t\
    A name is declared twice, or used and declared, or differs only by the case of letters.\t\
    Rename one of them, or use it `as` another name.\t\
    WIT.md, \"Identifiers\"\n\
    wit\tWitReason\t4\tUnknownName\t\
    a name that nothing declares; in borrow<..> one that is no resource\t\
    The name is misspelled, or stands in another interface.\t\
    Declare it, or write `use that-interface.{name};`.\t\
    WIT.md, \"Item: `use`\"\n\
    wit\tWitReason\t5\tCycle\t\
    the name of a declaration that leads to itself\t\
    A type holds itself, as a tree does, or two interfaces use each other.\t\
    Use a resource, or indices into a list, for what refers to itself.\t\
    WIT.md, \"Item: `use`\"\n\
    wit\tWitReason\t6\tUnsupported\t\
    a form that is not read: the words include, own, f32, f64, stream, future, async, from; @ \
    where an item begins; use where an item of a file begins\t\
    The text uses a form that this program does not read, as `include`, floats, streams, futures, \
    `async` functions or gates.\t\
    Leave the form out, or write an included world's items in place of `include`.\t\
    WIT.md, \"Keywords\"\n\
    wit\tWitReason\t7\tTooDeep\t\
    the first byte of a type at a level beyond the limit\t\
    A type is nested more than 64 levels deep.\t\
    Name parts of it, and nest less.\t\
    none: a limit of this project's own\n\
    wit\tWitReason\t8\tMemory\t\
    there was no memory\t\
    The process was given no more memory by the machine that it runs on.\t\
    Give it more memory, or less at a time; what was read so far may be right.\t\
    none: how memory is found\n\
    world\tWorldFault\t1\tNoSuchWorld\t\
    no package has a world of this full name\t\
    The name is misspelled, or lacks the package or the version.\t\
    Give the full name, as `a:b/w@1.0.0`: the line says which worlds the text has.\t\
    WIT.md, \"Worlds\"\n\
    world\tWorldFault\t2\tNoSuchInterface\t\
    a path in the world, or in an interface that it reaches, leads to no interface\t\
    The world names an interface of another package, whose text is not there.\t\
    Put the text of that package into the file, in braces: `package a:b@1.0.0 { .. }`.\t\
    WIT.md, \"Packages and Worlds\"\n\
    world\tWorldFault\t3\tNoSuchType\t\
    a name in what the world reaches leads to no type, or that of a borrow to no resource\t\
    A `use` names a type that its interface lacks, or a `borrow` something else than a resource.\t\
    Check the names between the braces of the `use`.\t\
    WIT.md, \"Item: `use`\"\n\
    world\tWorldFault\t4\tCycle\t\
    a type or an interface that the world reaches uses itself\t\
    Interfaces use types of one another.\t\
    Put the shared types into an interface of their own.\t\
    WIT.md, \"Item: `use`\"\n\
    world\tWorldFault\t5\tTooLarge\t\
    a type, or the parameters or the result of a function, has more nodes or levels than the \
    limit\t\
    A type that is used many times grows with each level.\t\
    Use a list or a string there: at most 10,000 nodes and 64 levels once all is written out.\t\
    none: a limit of this project's own\n\
    world\tWorldFault\t6\tMemory\t\
    there was no memory\t\
    The process was given no more memory by the machine that it runs on.\t\
    Give it more memory, or less at a time; what was read so far may be right.\t\
    none: how memory is found\n\
    conform\tConformReason\t1\tMissing\t\
    an export of the world, or an item of one, that the signature lacks\t\
    The component was made from another version of the world, or does not implement all of it.\t\
    Build it from this world; `hux show FILE` shows what it exports.\t\
    WIT.md, \"Worlds\"\n\
    conform\tConformReason\t2\tNotInWorld\t\
    an import of the signature, or an item of one, that the world lacks\t\
    A library or an adapter in the component imports something more, as WASI does.\t\
    Add the import to the world, or build the component without it.\t\
    WIT.md, \"Worlds\"\n\
    conform\tConformReason\t3\tDifferentType\t\
    what has one name is of two types, or of two sorts, or a resource corresponds to another one\t\
    The component was made from a text in which the type is another one.\t\
    Build it from this text; the line says what each side has.\t\
    WIT.md, \"Worlds\"\n\
    conform\tConformReason\t4\tMemory\t\
    there was no memory\t\
    The process was given no more memory by the machine that it runs on.\t\
    Give it more memory, or less at a time; what was read so far may be right.\t\
    none: how memory is found\n\
    script\tScriptFault\t1\tBadHex\t\
    a text that is neither - nor pairs of hex digits (Spells of the module HexBytes)\t\
    There is an odd number of digits, `0x`, or a blank between bytes.\t\
    Write two digits a byte with nothing between, or `-` for no bytes.\t\
    none: the form of a script\n\
    script\tScriptFault\t2\tMemory\t\
    there was no memory for the bytes\t\
    The process was given no more memory by the machine that it runs on.\t\
    Give it more memory, or less at a time; what was read so far may be right.\t\
    none: how memory is found\n\
    line\tLineFault\t0\tNotAStatement\t\
    the line is no statement\t\
    A word is misspelled, a number is not decimal, or there are two spaces.\t\
    Write one of the forms that the line names, with one space between words.\t\
    none: the form of a script\n\
    line\tLineFault\t0\tBadHex\t\
    the bytes of a write are not spelled\t\
    There is an odd number of digits, `0x`, or a blank between bytes.\t\
    Write two digits a byte with nothing between, or `-` for no bytes.\t\
    none: the form of a script\n\
    line\tLineFault\t0\tPagesFirst\t\
    the first statement is not pages, or there is none (line 1)\t\
    The script begins with a move, or is empty.\t\
    Begin it with `pages`, and a number for each component.\t\
    none: the form of a script\n\
    line\tLineFault\t0\tPagesTwice\t\
    pages comes again\t\
    Two scripts were joined.\t\
    Keep the first `pages` alone.\t\
    none: the form of a script\n\
    line\tLineFault\t0\tNoGuest\t\
    a move comes before the first guest\t\
    The script does not say whose move it is.\t\
    Write `guest I` before, with the number of the component.\t\
    none: the form of a script\n\
    line\tLineFault\t0\tNoSuchComponent\t\
    a guest names no component\t\
    The number is not below that of the files: components count from 0.\t\
    Count the files from 0, in the order in which they are given.\t\
    none: the form of a script\n\
    line\tLineFault\t0\tMemory\t\
    there was no memory for the statement\t\
    The process was given no more memory by the machine that it runs on.\t\
    Give it more memory, or less at a time; what was read so far may be right.\t\
    none: how memory is found\n\
";
