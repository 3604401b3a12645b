//! What is said of values that a host passes.
//!
//! Written by checks/explained --write.

/// The rows, a line each, with a tab between two fields.
pub(crate) const ROWS: &str = "\
    print\tPrintFault\t1\tWrongType\t\
    the value has not the type\t\
    A host made the value for another type.\t\
    Make it as the type says, with all fields in order.\t\
    Explainer.md, \"Value Types\"\n\
    print\tPrintFault\t2\tMemory\t\
    there was no memory\t\
    The process was given no more memory by the machine that it runs on.\t\
    Give it more memory, or less at a time; what was read so far may be right.\t\
    none: how memory is found\n\
    value\tValueReason\t1\tUnexpected\t\
    no value of the type goes on so, or none ends here\t\
    A quote, a bracket or a comma is missing, or the value is of another type.\t\
    Write it as its type: `\"text\"`, `'c'`, `[1, 2]`, `{x: 1}`, `some(1)`, `ok`; quote the whole \
    for the shell.\t\
    none: values are written as WIT's tools write them (WAVE)\n\
    value\tValueReason\t2\tBadEscape\t\
    a \\ is no escape, or the number behind it no Unicode scalar\t\
    A `\\` stands for itself, as in the path of a file.\t\
    Write `\\\\` for it; others are `\\n`, `\\t`, `\\\"` and `\\u{1f600}`.\t\
    none: values are written as WIT's tools write them (WAVE)\n\
    value\tValueReason\t3\tNotUtf8\t\
    what stands in quotes is not UTF-8\t\
    The text was typed or saved in another encoding.\t\
    Save it as UTF-8.\t\
    none: values are written as WIT's tools write them (WAVE)\n\
    value\tValueReason\t4\tNotOneChar\t\
    in the quotes of a char there is not exactly one character\t\
    A string stands in single quotes, or a character of several code points.\t\
    Write one code point between single quotes, and strings in double ones.\t\
    none: values are written as WIT's tools write them (WAVE)\n\
    value\tValueReason\t5\tOutOfRange\t\
    the type has no such number\t\
    The number is below or above what its type has.\t\
    Use a number of the type, as 0 to 255 for u8.\t\
    none: values are written as WIT's tools write them (WAVE)\n\
    value\tValueReason\t6\tUnknownName\t\
    the type has no such name, or not here\t\
    A field, a case or a flag is misspelled, or fields are in another order.\t\
    Take the names from `hux show FILE`, in their order.\t\
    none: values are written as WIT's tools write them (WAVE)\n\
    value\tValueReason\t7\tWrongLength\t\
    a list of fixed length has more elements or fewer\t\
    The type is a list of fixed length.\t\
    Write as many elements as the type says.\t\
    none: values are written as WIT's tools write them (WAVE)\n\
    value\tValueReason\t8\tMemory\t\
    there was no memory\t\
    The process was given no more memory by the machine that it runs on.\t\
    Give it more memory, or less at a time; what was read so far may be right.\t\
    none: how memory is found\n\
    seat\tSeatFault\t1\tNoComponent\t\
    the set has no component of this number\t\
    The number is not below that of the components.\t\
    Count components from 0, in the order in which they were linked.\t\
    none: how a host is seated\n\
    seat\tSeatFault\t2\tNoFunction\t\
    the component exports no such function, or no such resource with a destructor\t\
    The name lacks its interface, or is that of another component's function.\t\
    Name it `interface#function`, as `a:b/c@1.0.0#get`, or `function` where it is of no \
    interface.\t\
    none: how a host is seated\n\
    seat\tSeatFault\t3\tNotUtf8\t\
    the function passes strings in another encoding\t\
    The component that stands in for the host was not made by `cm_stubs`.\t\
    Make it by `hux stub`, or with the option UTF-8.\t\
    none: how a host is seated\n\
    seat\tSeatFault\t4\tMemory\t\
    there was no memory\t\
    The process was given no more memory by the machine that it runs on.\t\
    Give it more memory, or less at a time; what was read so far may be right.\t\
    none: how memory is found\n\
    values\tValuesFault\t1\tWrongTypes\t\
    there is not one value of each type\t\
    There are more or fewer values than parameters, or one of another type.\t\
    Give a value for each parameter, in order, as `hux show FILE` shows them.\t\
    Explainer.md, \"Value Types\"\n\
    values\tValuesFault\t2\tTooLarge\t\
    strings and lists have more than 16,777,216 bytes\t\
    One call passes very much.\t\
    Pass it in several calls.\t\
    none: a limit of this project's own\n\
    values\tValuesFault\t3\tNoRoom\t\
    the memory of the seat has no room for them\t\
    The seat was given few pages of memory.\t\
    Give its component more pages.\t\
    CanonicalABI.md, \"Storing\"\n\
    values\tValuesFault\t4\tMemory\t\
    there was no memory\t\
    The process was given no more memory by the machine that it runs on.\t\
    Give it more memory, or less at a time; what was read so far may be right.\t\
    none: how memory is found\n\
    call\tCallFault\t1\tNoFunction\t\
    the component imports and lowers no such function\t\
    The name lacks its interface, or the component that calls does not import it.\t\
    Name it `interface#function`, and make the caller by `hux stub --caller`.\t\
    none: how a host calls\n\
    call\tCallFault\t2\tNotUtf8\t\
    the function passes strings in another encoding\t\
    The component that stands in for the host was not made by `cm_stubs`.\t\
    Make it by `hux stub`, or with the option UTF-8.\t\
    none: how a host calls\n\
    call\tCallFault\t3\tArguments\t\
    the arguments are not passed, with the fault\t\
    The values are not those of the function's parameters, or there is no room for them.\t\
    See the fault behind it: it is a row of `values`.\t\
    none: how a host calls\n\
    call\tCallFault\t4\tMisuse\t\
    the machine does not begin the call, with the misuse; NoInstance where there is no seat\t\
    Another call goes on, or the instance is closed or not there.\t\
    See the misuse behind it.\t\
    none: how a host calls\n\
    call\tCallFault\t5\tTrapped\t\
    the call trapped, with the trap\t\
    The callee, or what it called, met a trap.\t\
    See the trap behind it.\t\
    none: how a host calls\n\
    call\tCallFault\t6\tLimit\t\
    it was not over after so many moves\t\
    The callee calls without end, or the limit is low.\t\
    Allow more moves, or look for the loop.\t\
    none: how a host calls\n\
    call\tCallFault\t7\tResults\t\
    the core values of the result denote no values, with the fault\t\
    The callee answered core values that are none of its type: a pointer or a case that is \
    wrong.\t\
    See the fault behind it, which has the name of a trap.\t\
    CanonicalABI.md, \"Loading\"\n\
    call\tCallFault\t8\tMemory\t\
    there was no memory\t\
    The process was given no more memory by the machine that it runs on.\t\
    Give it more memory, or less at a time; what was read so far may be right.\t\
    none: how memory is found\n\
";
