//! What is said of components that are not valid.
//!
//! Written by checks/explained --write.

/// The rows, a line each, with a tab between two fields.
pub(crate) const ROWS: &str = "\
    valid\tValidReason\t1\tNoSuchIndex\t\
    an index names nothing before the item; an outer level, or the name of an export of an \
    instance, is not there\t\
    A tool removed or moved a definition, and an index behind it still counts the old ones.\t\
    Count the definitions of that sort before the item, from 0: `wasm-tools print FILE` shows \
    them; build the file again.\t\
    Explainer.md, \"Index Spaces\"\n\
    valid\tValidReason\t2\tWrongSort\t\
    what it names is of another sort; a type equality, or a type among the exports of an instance, \
    is neither a value type nor a resource\t\
    An index is off by one, or counts another sort: functions, types, instances and core functions \
    each have indices of their own.\t\
    Look what `wasm-tools print FILE` shows at the index; build the file again.\t\
    Explainer.md, \"Index Spaces\"\n\
    valid\tValidReason\t3\tEmptyType\t\
    a record, variant, tuple, enum or set of flags is empty, or a fixed length is 0\t\
    A type of the source has no members, which the standard does not allow.\t\
    Give it a member, or leave it out.\t\
    Explainer.md, \"Type Definitions\"\n\
    valid\tValidReason\t4\tTooManyFlags\t\
    more flags than the limit\t\
    A set of flags grew past 32 labels.\t\
    Split it into several sets of flags.\t\
    Binary.md, \"Type Definitions\"\n\
    valid\tValidReason\t5\tBorrowInResult\t\
    a result holds a borrow, however deep\t\
    A function answers a `borrow`, or a type that holds one.\t\
    Answer an owned handle (`r` in the WIT text), or a number that stands for it.\t\
    Explainer.md, \"Type Definitions\"\n\
    valid\tValidReason\t6\tDuplicateName\t\
    two labels of a type or of parameters, two items of an instance, two imports, or two exports \
    have the same name, ASCII case aside; or two arguments, or two exports, of a core instance \
    have the same name, as texts\t\
    Two names differ only by the case of letters, or one is there twice.\t\
    Give one of them another name.\t\
    Explainer.md, \"Import and Export Definitions\"\n\
    valid\tValidReason\t7\tNeedsMemory\t\
    a lift or a lower has no memory, and its parameters or its result hold a string or a list with \
    a pointer, or take more core values than pass flat; or it has an allocator\t\
    The function passes a string, a list or more than 16 core values, and the core module's memory \
    was not named.\t\
    Export the core module's memory, and give the lift or the lower the option `memory`.\t\
    Explainer.md, \"Canonical Definitions\"\n\
    valid\tValidReason\t8\tNeedsRealloc\t\
    a lift has no allocator (realloc), and its parameters hold such or take more core values than \
    pass flat; a lower has none, and its result holds such\t\
    The core module exports no allocator (`cabi_realloc`), or the option was left out.\t\
    Export `cabi_realloc`, and give the lift or the lower the option `realloc`.\t\
    Explainer.md, \"Canonical Definitions\"\n\
    valid\tValidReason\t9\tOptionTwice\t\
    two canonical options of one kind; all encodings are one kind\t\
    A tool wrote an option, or two encodings, for one function.\t\
    Leave one of them.\t\
    Explainer.md, \"Canonical Definitions\"\n\
    valid\tValidReason\t10\tOptionNotAllowed\t\
    a lower has a post-return function\t\
    A post-return function was named at a lowered import.\t\
    Name it at the lift of the function that it tidies up behind.\t\
    Explainer.md, \"Canonical Definitions\"\n\
    valid\tValidReason\t11\tNotGuestFunction\t\
    a canonical definition made the core function that is lifted, or that is an allocator, a \
    post-return function or a destructor\t\
    What is lifted is a lowered import itself, or what makes or drops handles: tools put a core \
    module between.\t\
    Lift an export of a core instance; to pass an import on let a core module call it.\t\
    Explainer.md, \"Canonical Definitions\"\n\
    valid\tValidReason\t12\tSecondMemory\t\
    a memory is another export, or of another core instance, than the component's first one; core \
    instances of exports are followed\t\
    The component has two core modules with memories of their own, and options name both.\t\
    Let the core modules share one memory, or make two components and link them.\t\
    none: a rule of this project's own\n\
    valid\tValidReason\t13\tNotOwnResource\t\
    handles are made, or their representations read, of a resource that an import brings\t\
    The component makes handles of an imported resource, or reads what they stand for.\t\
    Let the component that defines the resource do so, and call its functions.\t\
    Explainer.md, \"Canonical Definitions\"\n\
    valid\tValidReason\t14\tBadAnnotatedName\t\
    a function has an interface's name, an instance a name that is neither label nor interface, a \
    type one that is no label; an annotated name is at top level, or its resource is none of the \
    same instance, by its exact text; a method's first parameter is not self, a borrow of the \
    resource; a constructor does not answer the resource, owned\t\
    A method, a constructor or a static function stands outside the interface of its resource, or \
    without its first parameter or result.\t\
    Keep such functions in the interface that has the resource: `self` is a borrow of it, and a \
    constructor answers it owned.\t\
    Explainer.md, \"Import and Export Definitions\"\n\
    valid\tValidReason\t15\tMemory\t\
    there was no memory, at an item behind items that keep the rules\t\
    The process was given no more memory by the machine that it runs on.\t\
    Give it more memory, or less at a time; what was read so far may be right.\t\
    none: how memory is found\n\
    valid\tValidReason\t16\tNotImported\t\
    what is lowered comes from no import, aliases, exports and instances of exports followed\t\
    The component lowers a function of its own in place of calling it in core code.\t\
    Lower imports alone, and call own functions by the core module's imports.\t\
    none: a rule of this project's own\n\
    valid\tValidReason\t17\tTooLarge\t\
    an expanded type has more nodes or levels than the limit\t\
    Types are nested very deep, or a type that is used many times grows with each level.\t\
    Use a list or a string there: at most 10,000 nodes and 64 levels once all is written out.\t\
    none: a limit of this project's own\n\
    valid\tValidReason\t19\tStoresLatin1\t\
    with latin1+utf16 the parameters of a lift, or the result of a lower, hold a string\t\
    The core code was built with the encoding latin1+utf16 for strings that are passed to it.\t\
    Use UTF-8 or UTF-16; latin1+utf16 is read, and not written.\t\
    Explainer.md, \"Canonical Definitions\"; the limit is this project's own\n\
";
