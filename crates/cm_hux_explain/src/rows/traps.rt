//! What is said of machines: traps, misuses and handles.
//!
//! Written by checks/explained --write.

/// The rows, a line each, with a tab between two fields.
pub(crate) const ROWS: &str = "\
    trap\tTrap\t1\tCoreShape\t\
    a call or a return with other core values than the function's type has\t\
    A `call` or a `return` has other values than the function's line in `hux core` says, or core \
    code and component were made from different WIT texts.\t\
    Compare with that line, count the place of a result in memory as a parameter, and make \
    bindings and component from one WIT text.\t\
    CanonicalABI.md, \"Flattening\"\n\
    trap\tTrap\t2\tUnreachable\t\
    the guest stopped\t\
    The guest panicked or aborted, its script says `unreachable`, or the moves that a script gives \
    it are used up.\t\
    Look for the panic in the guest, which stopped behind the last event; give a guest of a script \
    the moves that are missing.\t\
    CanonicalABI.md, \"canon lift\"\n\
    trap\tTrap\t3\tGuestBounds\t\
    a guest's own write passes the end of its memory\t\
    A `write`, or a store of core code, reaches past the pages that the memory has now.\t\
    Begin with more pages (`pages` of a script, `--pages` of live), `grow` the memory before, or \
    write at a lower address.\t\
    CanonicalABI.md, \"Storing\"\n\
    trap\tTrap\t4\tPointerBounds\t\
    a pointer, with what it points to, passes the end of a memory\t\
    A string, a list or a place of a result was passed with a pointer or a length that does not \
    fit the memory, as where bytes were counted in place of elements.\t\
    Check pointer and length where the guest passes them: lists count elements, UTF-8 strings \
    bytes; an allocator has to answer a region within its memory.\t\
    CanonicalABI.md, \"Loading\"\n\
    trap\tTrap\t5\tMisaligned\t\
    a pointer is not a multiple of its alignment\t\
    An allocator does not heed the alignment that it is asked for, or a list or a record begins at \
    an odd address.\t\
    Round addresses up to the alignment of the type, which is the third argument of an \
    allocator.\t\
    CanonicalABI.md, \"Alignment\"\n\
    trap\tTrap\t6\tBadChar\t\
    a number that is no Unicode scalar is read as a char\t\
    A surrogate of UTF-16 (D800 to DFFF) or memory that nobody wrote was passed as a char.\t\
    Pass Unicode scalar values: join surrogates before, and write what is passed.\t\
    CanonicalABI.md, \"Loading\"\n\
    trap\tTrap\t7\tBadCase\t\
    a discriminant is not below the number of cases\t\
    Both sides know different versions of a variant, an enum, an option or a result, or its \
    discriminant was not written.\t\
    Make both sides from one WIT text, and write the discriminant in as many bytes as the type \
    has: 1, 2 or 4.\t\
    CanonicalABI.md, \"Loading\"\n\
    trap\tTrap\t8\tBadText\t\
    the bytes of a string are no text of its encoding\t\
    The text is in another encoding than the function's option says, or pointer and length cut a \
    character.\t\
    Pass whole characters, in the encoding that `hux core` shows of the function.\t\
    CanonicalABI.md, \"Loading\"\n\
    trap\tTrap\t9\tTooLarge\t\
    the strings and lists in one direction of a call hold more bytes than the limit\t\
    The length of a list or a string is wrong, or one call passes very much.\t\
    Check the length; pass large data in several calls.\t\
    none: a limit of this project's own\n\
    trap\tTrap\t10\tNoHandle\t\
    the table has no handle at an index\t\
    The handle was dropped before, or given away where it was passed as owned.\t\
    Drop a handle once, behind its last use, and not at all once it was passed as owned.\t\
    CanonicalABI.md, \"Table State\"\n\
    trap\tTrap\t11\tWrongResource\t\
    the handle at an index is of another resource\t\
    The guest mixed up two indices: handles of all its resources are in one table.\t\
    Keep handles of each resource in a type of its own, as bindings do, and follow where this \
    index came from.\t\
    CanonicalABI.md, \"Resource State\"\n\
    trap\tTrap\t12\tStillLent\t\
    the handle is lent to a call that has not returned\t\
    The handle was dropped or given away while a call that borrows it goes on.\t\
    Drop it, or pass it as owned, only behind the return of that call.\t\
    CanonicalABI.md, \"Resource State\"\n\
    trap\tTrap\t13\tNotOwned\t\
    the handle is borrowed, and an owned one is wanted\t\
    The guest passed on as owned what it had only borrowed.\t\
    Pass a handle that it owns, or let the function take a `borrow` in the WIT text.\t\
    CanonicalABI.md, \"Loading\"\n\
    trap\tTrap\t14\tTableFull\t\
    the handle table is full, or no serial number is left\t\
    The instance never drops its handles, and has 65,535 of them.\t\
    Drop handles that are done with; the events before show which resource they are of.\t\
    CanonicalABI.md, \"Table State\"; the limit is this project's own\n\
    trap\tTrap\t15\tBorrowsLeft\t\
    a call returned before it dropped the handles that it had borrowed\t\
    The function kept a handle that it was given as a `borrow`, or forgot to drop it.\t\
    Drop each borrowed handle before the return; to keep a resource, take it as owned in the WIT \
    text.\t\
    CanonicalABI.md, \"canon lift\"\n\
    trap\tTrap\t16\tMayNotLeave\t\
    an instance calls out where it may not leave: in its allocator or its post-return function\t\
    An allocator or a post-return function calls an import, as one that logs does.\t\
    Let these two functions only allocate and free; make the call in the function itself.\t\
    CanonicalABI.md, \"Component Instance State\"\n\
    trap\tTrap\t17\tOverlap\t\
    two regions that the allocator answered overlap\t\
    An allocator gave out one region twice within a call, as one that answers a fixed address \
    does.\t\
    Let the allocator keep what it gave out until it is freed, and answer a new region each \
    time.\t\
    none: a rule of this project's own\n\
    trap\tTrap\t18\tStackFull\t\
    a call or a destructor where the stack is full\t\
    Calls and destructors are nested 64 deep: mostly destructors that drop handles with \
    destructors in turn.\t\
    Drop a long chain of resources one after another, not each within the destructor of the one \
    before.\t\
    none: a limit of this project's own\n\
    trap\tTrap\t19\tUnknownFunction\t\
    a call of an index that is no canonical function of the instance\t\
    The number was taken from another component or another version of it, or it is that of a \
    guest's own function.\t\
    Take the number from `hux core FILE`: a lowered import, or what makes, drops or reads a \
    handle.\t\
    Explainer.md, \"Index Spaces\"\n\
    trap\tTrap\t20\tEngineMemory\t\
    the machine itself found no memory, where it may want some\t\
    A large value was passed where the process has little memory.\t\
    Give the process more memory, or pass less in a call.\t\
    none: how memory is found\n\
    trap\tTrap\t21\tCalleeClosed\t\
    a call, or a destructor, of an instance that a trap has closed\t\
    A trap of an earlier drive closed the instance, and another one calls it.\t\
    Mend the first trap, or make the set anew behind it.\t\
    Explainer.md, \"Component Invariants\"\n\
    misuse\tMisuse\t1\tIdle\t\
    the stack is empty, so no instance acts\t\
    A move was made before any `begin`, or behind the end of its drive.\t\
    Begin a root call, and make moves until `ended` or `trapped`.\t\
    none: how a host calls this machine\n\
    misuse\tMisuse\t2\tBusy\t\
    the stack is not empty\t\
    A root call was begun while an earlier one had not returned.\t\
    Make the moves that the earlier one still wants, up to `ended` or `trapped`.\t\
    none: how a host calls this machine\n\
    misuse\tMisuse\t3\tClosed\t\
    a trap has closed the instance\t\
    An earlier drive trapped, which closed all instances on its stack.\t\
    Mend that trap, or make the set anew behind it.\t\
    none: how a host calls this machine\n\
    misuse\tMisuse\t4\tNoInstance\t\
    no instance has this number\t\
    The number is not below that of the files: components count from 0.\t\
    Name a component by its place among the files, from 0.\t\
    none: how a host calls this machine\n\
    misuse\tMisuse\t5\tBadPages\t\
    not one number of pages for each component, or one above the limit\t\
    `pages` has more or fewer numbers than there are files, or one above 1,024.\t\
    Give one number of pages for each file, in order, each at most 1,024.\t\
    none: how a host calls this machine\n\
    misuse\tMisuse\t6\tMemory\t\
    no memory for the set or for the list of events\t\
    The process was given no more memory by the machine that it runs on.\t\
    Give it more memory, or less at a time; what was read so far may be right.\t\
    none: how memory is found\n\
    handle\tHandleFault\t1\tNoHandle\t\
    the table has no handle at the index: 0, never used, or freed\t\
    The handle was dropped or given away before.\t\
    Use an index only between the call that gave it and the one that took it.\t\
    CanonicalABI.md, \"Table State\"\n\
    handle\tHandleFault\t2\tWrongResource\t\
    the handle is of another resource\t\
    Indices of handles of two resources were mixed up.\t\
    Keep handles of each resource in a type of its own.\t\
    CanonicalABI.md, \"Table State\"\n\
    handle\tHandleFault\t3\tStillLent\t\
    the handle is lent to a call that has not ended\t\
    The handle is dropped or given away while a call borrows it.\t\
    Wait for the return of that call.\t\
    CanonicalABI.md, \"Resource State\"\n\
    handle\tHandleFault\t4\tNotOwned\t\
    the handle is borrowed, and an owned one is wanted\t\
    A borrowed handle is used as an owned one.\t\
    Use an owned handle there.\t\
    CanonicalABI.md, \"Resource State\"\n\
    handle\tHandleFault\t5\tFull\t\
    all indices are in use, or too few are left\t\
    Handles are made and never dropped.\t\
    Drop handles that are done with: a table has at most 65,535.\t\
    CanonicalABI.md, \"Table State\"\n\
    handle\tHandleFault\t6\tMemory\t\
    there was no memory for an entry\t\
    The process was given no more memory by the machine that it runs on.\t\
    Give it more memory, or less at a time; what was read so far may be right.\t\
    none: how memory is found\n\
";
