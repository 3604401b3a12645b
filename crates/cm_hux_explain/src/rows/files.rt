//! What is said of files that are read and written, and of what stands in them.
//!
//! Written by checks/explained --write.

/// The rows, a line each, with a tab between two fields.
pub(crate) const ROWS: &str = "\
    decode\tDecodeReason\t1\tBadPreamble\t\
    the file does not begin with a component's preamble; the first byte that differs\t\
    The file is no component: a core module, a text, or something else.\t\
    Make a component of a core module by `wasm-tools component new` or `wasm-component-ld`, of a \
    text by `wasm-tools parse`.\t\
    Binary.md, \"Component Definitions\"\n\
    decode\tDecodeReason\t2\tTruncated\t\
    the input ends before the file does; the input's length\t\
    The file was cut while it was copied or written.\t\
    Copy or build it again, and compare its length.\t\
    Binary.md, \"Component Definitions\"\n\
    decode\tDecodeReason\t3\tBadNumber\t\
    a number in LEB128 that is too long or too large; its first byte\t\
    The file is damaged before this byte, or a tool wrote a number of more than 32 bits.\t\
    Build the file again; in a tool of your own write numbers in LEB128 of at most five bytes.\t\
    Binary.md, \"Index Spaces\"\n\
    decode\tDecodeReason\t4\tSizeMismatch\t\
    a section's contents are longer or shorter than its size; the first byte left, or the \
    section's end\t\
    A tool changed the contents of a section and not its size, or the file is damaged.\t\
    Build the file again; a tool has to write the size behind the contents are known.\t\
    Binary.md, \"Component Definitions\"\n\
    decode\tDecodeReason\t5\tUnknownCode\t\
    a byte that names nothing at its place; that byte\t\
    The file has a form of a newer standard, as an asynchronous function, or is damaged.\t\
    Build it with the features of preview 2 alone; `wasm-tools print FILE` shows which form it \
    is.\t\
    Binary.md, \"Component Definitions\"\n\
    decode\tDecodeReason\t6\tUnsupported\t\
    a form of the standard that is not carried (the feature is named); the byte that names it\t\
    The component uses a form that this program does not carry: the words behind say which.\t\
    Build it without that form; nested components that tools write for exported interfaces are \
    read by `hux`, not by `component_tool`.\t\
    Binary.md, \"Component Definitions\"\n\
    decode\tDecodeReason\t7\tBadUtf8\t\
    a text that is not UTF-8; its first byte\t\
    A name was written in another encoding, or the file is damaged.\t\
    Write names in UTF-8.\t\
    Binary.md, \"Import and Export Definitions\"\n\
    decode\tDecodeReason\t8\tBadName\t\
    a text that is no label or extern name; its first byte\t\
    A tool wrote a name that WIT does not have, as with underscores or mixed case.\t\
    Use words of letters and digits joined by hyphens, as `get-user`, and interfaces as \
    `a:b/c@1.0.0`.\t\
    Binary.md, \"Import and Export Definitions\"\n\
    decode\tDecodeReason\t9\tNotAModule\t\
    a core module without its preamble; its first byte\t\
    A core module of another version, or another component, was put in as a core module.\t\
    Embed files that begin with `00 61 73 6D 01 00 00 00`.\t\
    Binary.md, \"Component Definitions\"\n\
    decode\tDecodeReason\t10\tTooMany\t\
    too many types; the first byte of the first one over\t\
    A tool made a type for each use in place of one for all.\t\
    Share equal types; at most 4,096 are read.\t\
    none: a limit of this project's own\n\
    decode\tDecodeReason\t11\tTooLong\t\
    more bytes than the limit; the limit\t\
    The file carries debugging sections or data.\t\
    Strip it (`wasm-tools strip`), or load data by a call; at most 16,777,216 bytes are read.\t\
    none: a limit of this project's own\n\
    decode\tDecodeReason\t12\tRead\t\
    the reader of decode_from failed; the number of bytes read before\t\
    A disk, a pipe or a connection failed while the bytes came.\t\
    Read again, and look what the reader says.\t\
    none: how bytes come\n\
    decode\tDecodeReason\t13\tMemory\t\
    there was no memory; nothing is said of the place\t\
    The process was given no more memory by the machine that it runs on.\t\
    Give it more memory, or less at a time; what was read so far may be right.\t\
    none: how memory is found\n\
    file\tFileFault\t1\tRead\t\
    a file is missing, a folder, or cannot be read\t\
    The name is misspelled, is that of a folder, or the file may not be read.\t\
    Check name, folder and permissions; `-` is standard input.\t\
    none: how files are read\n\
    file\tFileFault\t2\tMemory\t\
    there was no memory for its bytes\t\
    The process was given no more memory by the machine that it runs on.\t\
    Give it more memory, or less at a time; what was read so far may be right.\t\
    none: how memory is found\n\
    text-file\tTextFileFault\t1\tTooLong\t\
    more bytes than the limit; the limit\t\
    The word names another file than the script or the WIT text.\t\
    Check the file's name; a text has at most 16,777,216 bytes.\t\
    none: a limit of this project's own\n\
    text-file\tTextFileFault\t2\tBadUtf8\t\
    bytes that are not UTF-8; the first byte of what is ill-formed\t\
    The text was saved in another encoding, or the file is no text: a component given for a WIT \
    text.\t\
    Save it as UTF-8, or name the right file.\t\
    WIT.md, \"Lexical structure\"\n\
    limit\tLimitFault\t1\tTooMany\t\
    more types than the limit\t\
    A file with shims stands for more types than a file may have, or a host made as many.\t\
    Share equal types, or split the component: at most 4,096.\t\
    none: a limit of this project's own\n\
    limit\tLimitFault\t2\tTooLong\t\
    the shortest file of these sections has more bytes than the limit\t\
    Large core modules or custom sections, or many shims, which are written out for each \
    instance.\t\
    Strip the file, or split the component: at most 16,777,216 bytes.\t\
    none: a limit of this project's own\n\
    limit\tLimitFault\t3\tNotAModule\t\
    a core module does not begin with 00 61 73 6D 01 00 00 00\t\
    A host put other bytes than those of a core module into a section.\t\
    Put in the bytes of a core module, from its first one on.\t\
    Binary.md, \"Component Definitions\"\n\
    write\tWriteReason\t1\tWrite\t\
    the writer failed, or took none of the bytes\t\
    The disk is full, the file may not be written, or nobody reads the pipe any more.\t\
    Make room, or write elsewhere.\t\
    none: how bytes are written\n\
    write\tWriteReason\t2\tMemory\t\
    there was no memory; nothing was written\t\
    The process was given no more memory by the machine that it runs on.\t\
    Give it more memory, or less at a time; what was read so far may be right.\t\
    none: how memory is found\n\
    leb\tLebFault\t1\tTruncated\t\
    the bytes end before the number does\t\
    The bytes were cut within a number.\t\
    Build the bytes again: a number in LEB128 has at most five bytes, of which the last one's high \
    bit is 0.\t\
    Binary.md, \"Index Spaces\"\n\
    leb\tLebFault\t2\tTooLong\t\
    a number of more than five bytes\t\
    The number was written for 64 bits, or what stands there is no number.\t\
    Build the bytes again: a number in LEB128 has at most five bytes, of which the last one's high \
    bit is 0.\t\
    Binary.md, \"Index Spaces\"\n\
    leb\tLebFault\t3\tBadLastBits\t\
    a number too large for its type\t\
    The number was written for more bits than its type has.\t\
    Build the bytes again: a number in LEB128 has at most five bytes, of which the last one's high \
    bit is 0.\t\
    Binary.md, \"Index Spaces\"\n\
    signed\tSignedFault\t1\tTooLarge\t\
    a number with a sign of more than 33 bits\t\
    A host passes a number past -4,294,967,296 to 4,294,967,295.\t\
    Pass a type's index, or the negative number of a primitive.\t\
    Binary.md, \"Type Definitions\"\n\
    signed\tSignedFault\t2\tMemory\t\
    there was no memory for its bytes\t\
    The process was given no more memory by the machine that it runs on.\t\
    Give it more memory, or less at a time; what was read so far may be right.\t\
    none: how memory is found\n\
    name\tNameFault\t1\tEmpty\t\
    the name, or a part that it should have, is empty or missing\t\
    A name was not filled in, or a part of `a:b/c` is missing.\t\
    Give each part of the name.\t\
    Explainer.md, \"Import and Export Definitions\"\n\
    name\tNameFault\t2\tBadFragment\t\
    a part is not words and acronyms joined by hyphens\t\
    The name has underscores, mixed case within a word, or a hyphen at an end.\t\
    Use words of lower-case letters and digits, or acronyms of upper-case ones, joined by single \
    hyphens.\t\
    Explainer.md, \"Import and Export Definitions\"\n\
    name\tNameFault\t3\tBadAnnotation\t\
    it begins with [ and is no [method], [static] or [constructor]\t\
    The annotation is misspelled, or of a newer standard, as `[async]`.\t\
    Use `[constructor]r`, `[method]r.f` or `[static]r.f`.\t\
    Explainer.md, \"Import and Export Definitions\"\n\
    name\tNameFault\t4\tBadVersion\t\
    what follows @ is no version\t\
    The version has fewer than three numbers, or a leading zero.\t\
    Write it as SemVer does: `@1.2.3`, or `@1.2.3-rc.1`.\t\
    Explainer.md, \"Import and Export Definitions\"\n\
    name\tNameFault\t5\tMemory\t\
    there was no memory for the name\t\
    The process was given no more memory by the machine that it runs on.\t\
    Give it more memory, or less at a time; what was read so far may be right.\t\
    none: how memory is found\n\
    type\tTypeFault\t1\tTooLarge\t\
    more nodes or levels than the limit\t\
    Types are nested very deep, or tuples of tuples grow with each level.\t\
    Pass such data as a list or a string: at most 10,000 nodes and 64 levels.\t\
    none: a limit of this project's own\n\
    type\tTypeFault\t2\tNotSpellable\t\
    a part that no file can spell: a record, tuple, variant, enum, set of flags or list of fixed \
    length with nothing in it, or too many flags\t\
    A host made an empty record, variant, tuple, enum, list of fixed length or set of flags, or \
    more than 32 flags.\t\
    Give it at least one part; use several sets of flags.\t\
    Explainer.md, \"Type Definitions\"\n\
    text\tTextFault\t1\tIllFormed\t\
    the bytes are no text of the encoding; the longest beginning that is one ends at the byte that \
    is given\t\
    The bytes are in another encoding, or a character is cut.\t\
    Pass whole characters in the encoding that is named.\t\
    CanonicalABI.md, \"Loading\"\n\
    text\tTextFault\t2\tMemory\t\
    there was no memory for the answer\t\
    The process was given no more memory by the machine that it runs on.\t\
    Give it more memory, or less at a time; what was read so far may be right.\t\
    none: how memory is found\n\
    show\tShowFault\t1\tTooLong\t\
    the text has more bytes than the limit\t\
    Types that are shared in the file are written out at each use, where the text grows by \
    powers.\t\
    Use `hux show`, which writes each type once, or smaller types.\t\
    none: a limit of this project's own\n\
    show\tShowFault\t2\tMemory\t\
    there was no memory for the text\t\
    The process was given no more memory by the machine that it runs on.\t\
    Give it more memory, or less at a time; what was read so far may be right.\t\
    none: how memory is found\n\
    shim\tShimReason\t1\tNoSuchShim\t\
    an instance of a component, where no shim before it has its index\t\
    The file instantiates a component that it does not define before.\t\
    Build the file again with wasm-tools or wasm-component-ld, and see by `wasm-tools validate \
    FILE` whether it is a component at all.\t\
    Binary.md, \"Instance Definitions\"\n\
    shim\tShimReason\t2\tMissingArgument\t\
    an instance is not given what its shim imports, by sort and name\t\
    A tool changed the shim, or its instance, and not the other.\t\
    Build the file again with wasm-tools or wasm-component-ld, and see by `wasm-tools validate \
    FILE` whether it is a component at all.\t\
    Binary.md, \"Instance Definitions\"\n\
    shim\tShimReason\t3\tNoSuchType\t\
    an instance or an import names a type, of the file or of the shim, that is not there\t\
    A type was removed that an instance or an import still names.\t\
    Build the file again with wasm-tools or wasm-component-ld, and see by `wasm-tools validate \
    FILE` whether it is a component at all.\t\
    Binary.md, \"Instance Definitions\"\n\
    shim\tShimReason\t4\tNoSuchFunc\t\
    an instance of a shim that exports a function that is not there\t\
    A nested component exports a function that it neither imports nor defines.\t\
    Build the file again with wasm-tools or wasm-component-ld, and see by `wasm-tools validate \
    FILE` whether it is a component at all.\t\
    Binary.md, \"Instance Definitions\"\n\
    shim\tShimReason\t5\tOtherType\t\
    an instance of a shim that defines a resource, or the type of an instance\t\
    The nested component is no shim that renames alone: it defines a resource or a type of an \
    instance.\t\
    Build each component as a file of its own and link them by `hux link`.\t\
    Binary.md, \"Instance Definitions\"\n\
    shim\tShimReason\t6\tTooLong\t\
    an instance with which the shims of all instances have more bytes than a file may\t\
    A nested component with much in it is instantiated many times.\t\
    Export fewer interfaces of one component, or build each component as a file of its own.\t\
    Binary.md, \"Instance Definitions\"\n\
    shim\tShimReason\t7\tNameTwice\t\
    an import of a shim, or an argument of an instance, whose sort and name stood before\t\
    A tool wrote an import or an argument twice.\t\
    Build the file again with wasm-tools or wasm-component-ld, and see by `wasm-tools validate \
    FILE` whether it is a component at all.\t\
    Binary.md, \"Instance Definitions\"\n\
    fit\tFitReason\t1\tOtherFunc\t\
    a function has another type than its shim says, as an import or by ascription\t\
    The WIT text of the exported interface and the core code's bindings are of two versions.\t\
    Build the component from one version of its WIT text, with its bindings, and see what \
    `wasm-tools validate FILE` says.\t\
    Explainer.md, \"Instance Definitions\"\n\
    fit\tFitReason\t2\tOtherType\t\
    a type is given that is another one than the shim says\t\
    The exported interface uses a type of another version than the component has.\t\
    Build the component from one version of its WIT text, with its bindings, and see what \
    `wasm-tools validate FILE` says.\t\
    Explainer.md, \"Instance Definitions\"\n\
    fit\tFitReason\t3\tNoResource\t\
    a type is given that is no resource, where the shim imports one\t\
    A resource of the interface became a plain type, or the other way round.\t\
    Build the component from one version of its WIT text, with its bindings, and see what \
    `wasm-tools validate FILE` says.\t\
    Explainer.md, \"Instance Definitions\"\n\
    fit\tFitReason\t4\tMemory\t\
    there was no memory; the wants before this one hold\t\
    The process was given no more memory by the machine that it runs on.\t\
    Give it more memory, or less at a time; what was read so far may be right.\t\
    none: how memory is found\n\
";
