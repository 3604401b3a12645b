//! What is said of components that are linked, bundled or stubbed.
//!
//! Written by checks/explained --write.

/// The rows, a line each, with a tab between two fields.
pub(crate) const ROWS: &str = "\
    link\tLinkReason\t1\tEmpty\t\
    no component; at component 0, import 0\t\
    No file was given.\t\
    Give at least one component.\t\
    none: a limit of this project's own\n\
    link\tLinkReason\t2\tTooMany\t\
    more components than the limit; at component 0, import 0\t\
    More than 16 files were given.\t\
    Link at most 16 components at a time.\t\
    none: a limit of this project's own\n\
    link\tLinkReason\t3\tNoProvider\t\
    no export of an earlier component that the import sees has its name, or that of its interface \
    in a compatible version\t\
    The file that exports it stands behind the one that imports it, is missing, is hidden in a \
    bundle, or has another name or version; or the host is to give it.\t\
    Put the provider before the user; for what a host gives, make a stand-in: `hux stub FILE -o \
    host.wasm`.\t\
    Explainer.md, \"Import and Export Definitions\"\n\
    link\tLinkReason\t4\tTwoProviders\t\
    more than one has\t\
    Two files before it export the name, or compatible versions of one interface.\t\
    Say which serves it, in `hux` with `--serve` or `--nearest`, or leave one of them out.\t\
    Explainer.md, \"Import and Export Definitions\"\n\
    link\tLinkReason\t5\tMissingExport\t\
    an instance has nothing under the name of a wanted item\t\
    The provider was made from an older version of the interface, without the item that is \
    wanted.\t\
    Build it from the version that the user wants: `hux show` shows both, and `hux diff` where \
    they differ.\t\
    Explainer.md, \"Instance Definitions\"\n\
    link\tLinkReason\t6\tDifferentType\t\
    what is there is of another sort, or of another type, labels included, once each resource is \
    what it is in the end\t\
    Provider and user were made from different versions of a WIT text under one name.\t\
    Build both from one text; raise the version when a type changes. `hux diff` shows what was \
    changed.\t\
    Explainer.md, \"Type Definitions\"\n\
    link\tLinkReason\t7\tDifferentResource\t\
    a resource is another one than the import says that it equals\t\
    Two of its imports share a resource, and two components, which each have a resource of their \
    own, serve them.\t\
    Let one provider serve both imports, or one that passes the other's resource on.\t\
    Explainer.md, \"Type Definitions\"\n\
    link\tLinkReason\t8\tMemory\t\
    there was no memory; the imports before its place are served; not for 1 and 2, before which \
    none is wanted\t\
    The process was given no more memory by the machine that it runs on.\t\
    Give it more memory, or less at a time; what was read so far may be right.\t\
    none: how memory is found\n\
    bundle\tBundleReason\t1\tBadPreamble\t\
    the file does not begin as a component does\t\
    The file is no component.\t\
    Write it again by `hux link FILE.. -o OUT`; a component of another form is linked as a file of \
    its own.\t\
    Binary.md, \"Component Definitions\"\n\
    bundle\tBundleReason\t2\tTruncated\t\
    the input ends before the bundle does\t\
    The file was cut, or is a component of another form.\t\
    Write it again by `hux link FILE.. -o OUT`; a component of another form is linked as a file of \
    its own.\t\
    none: the form of a bundle, which is a component as Binary.md has it\n\
    bundle\tBundleReason\t3\tBadNumber\t\
    a number that is too large, or not spelled shortest\t\
    A tool wrote the file again, with numbers in more bytes than they need.\t\
    Write it again by `hux link FILE.. -o OUT`; a component of another form is linked as a file of \
    its own.\t\
    none: the form of a bundle, which is a component as Binary.md has it\n\
    bundle\tBundleReason\t4\tOtherNumber\t\
    a component, a count or an index that is not the one that belongs there\t\
    The file is a component, but none that `hux link -o` or `hux plug -o` wrote, or a tool has \
    changed it.\t\
    Write it again by `hux link FILE.. -o OUT`; a component of another form is linked as a file of \
    its own.\t\
    none: the form of a bundle, which is a component as Binary.md has it\n\
    bundle\tBundleReason\t5\tSizeMismatch\t\
    a section whose contents are of another length\t\
    A tool changed a section and not its size, or the file is damaged.\t\
    Write it again by `hux link FILE.. -o OUT`; a component of another form is linked as a file of \
    its own.\t\
    none: the form of a bundle, which is a component as Binary.md has it\n\
    bundle\tBundleReason\t6\tUnknownCode\t\
    a byte without a meaning at its place\t\
    The file is a component, but none that `hux link -o` or `hux plug -o` wrote, or a tool has \
    changed it.\t\
    Write it again by `hux link FILE.. -o OUT`; a component of another form is linked as a file of \
    its own.\t\
    none: the form of a bundle, which is a component as Binary.md has it\n\
    bundle\tBundleReason\t7\tNoSuchPart\t\
    an alias of an instance that is no earlier part\t\
    The file is a component, but none that `hux link -o` or `hux plug -o` wrote, or a tool has \
    changed it.\t\
    Write it again by `hux link FILE.. -o OUT`; a component of another form is linked as a file of \
    its own.\t\
    none: the form of a bundle, which is a component as Binary.md has it\n\
    bundle\tBundleReason\t8\tBadUtf8\t\
    a name that is not UTF-8\t\
    A name was changed by a tool, or the file is damaged.\t\
    Write it again by `hux link FILE.. -o OUT`; a component of another form is linked as a file of \
    its own.\t\
    none: the form of a bundle, which is a component as Binary.md has it\n\
    bundle\tBundleReason\t9\tTooManyParts\t\
    more than 1,000 parts, or groups\t\
    The file is a component, but none that `hux link -o` or `hux plug -o` wrote, or a tool has \
    changed it.\t\
    Link at most 16 components to a bundle.\t\
    none: the form of a bundle, which is a component as Binary.md has it\n\
    bundle\tBundleReason\t10\tSurplus\t\
    bytes behind the exports that are no custom section\t\
    A tool added a section behind the bundle's own that is no custom one.\t\
    Write it again by `hux link FILE.. -o OUT`; a component of another form is linked as a file of \
    its own.\t\
    none: the form of a bundle, which is a component as Binary.md has it\n\
    bundle\tBundleReason\t11\tTooLong\t\
    2^32 bytes and more\t\
    The file is a component, but none that `hux link -o` or `hux plug -o` wrote, or a tool has \
    changed it.\t\
    Strip the files before they are linked.\t\
    none: the form of a bundle, which is a component as Binary.md has it\n\
    bundle\tBundleReason\t12\tMemory\t\
    there was no memory\t\
    The process was given no more memory by the machine that it runs on.\t\
    Give it more memory, or less at a time; what was read so far may be right.\t\
    none: how memory is found\n\
    bundle\tBundleReason\t13\tBadFront\t\
    a section in front of the parts that is not one of imports, or of aliases of types, where it \
    has to be\t\
    A tool wrote the imports of an open bundle anew, or put others among them.\t\
    Write it again by `hux link --open FILE.. -o OUT`; a component of another form is linked as a \
    file of its own.\t\
    none: the form of a bundle, which is a component as Binary.md has it\n\
    bundling\tBundlingFault\t0\tOtherFiles\t\
    more or fewer files than components\t\
    A host gives `bundle` the bytes of more or fewer files than the set has components.\t\
    Give the bytes of each component's file, in order.\t\
    none: how bundles are made\n\
    bundling\tBundlingFault\t0\tNoSuchComponent\t\
    no component has the number exporter\t\
    `--export` has a number that is not below that of the files.\t\
    Count components from 0, or leave `--export` out: the last one's exports are taken.\t\
    none: how bundles are made\n\
    bundling\tBundlingFault\t0\tOtherFront\t\
    the front does not import what component 0 exports, in order and under the same names\t\
    A host gives `bundle` a front that has not the names and sorts of what component 0 exports, in \
    order.\t\
    Make component 0 of the front: it has to export what that imports, in order.\t\
    none: how bundles are made\n\
    bundling\tBundlingFault\t0\tTooLong\t\
    the bundle would take 2^32 bytes or more\t\
    The files have together about 4 GB.\t\
    Strip them before they are linked.\t\
    none: how bundles are made\n\
    bundling\tBundlingFault\t0\tMemory\t\
    there was no memory\t\
    The process was given no more memory by the machine that it runs on.\t\
    Give it more memory, or less at a time; what was read so far may be right.\t\
    none: how memory is found\n\
    stub\tStubFault\t1\tComponent\t\
    one of the components that are given is not valid: the first, with its fault\t\
    One of the files is no valid component.\t\
    Mend what the reason behind it says: `hux check FILE..`.\t\
    none: see the reason behind it\n\
    stub\tStubFault\t2\tTooMany\t\
    the stub would have more types than a file may have\t\
    The files import, or export, interfaces with thousands of types.\t\
    Make stubs of fewer files at a time.\t\
    none: a limit of this project's own\n\
    stub\tStubFault\t3\tTooLong\t\
    its file would have more bytes than a file may have, or what is asked has: its names, and the \
    items of each of its instances\t\
    The names and items of all interfaces are together more than a file may have.\t\
    Make stubs of fewer files at a time.\t\
    none: a limit of this project's own\n\
    stub\tStubFault\t4\tNoResource\t\
    a function passes handles of a resource that no instance has, up to and with its own, nor an \
    import that brings resources\t\
    A function takes handles of a resource that comes only behind it, or from no interface.\t\
    Import, or export, the interface with the resource before those that use it.\t\
    Explainer.md, \"Type Definitions\"\n\
    stub\tStubFault\t5\tNotValid\t\
    the stub is not valid, with its fault: as where two names that are asked differ by ASCII case \
    alone\t\
    Two files ask for names that differ only by the case of letters.\t\
    Make a stub for each of them.\t\
    Explainer.md, \"Import and Export Definitions\"\n\
    stub\tStubFault\t6\tNotLinked\t\
    the stub and the components can't be linked, with the fault: as where two components ask for \
    one name in different types\t\
    Two files ask for one name in different types.\t\
    Build them from one WIT text, or make a stub for each.\t\
    Explainer.md, \"Type Definitions\"\n\
    stub\tStubFault\t7\tNotExact\t\
    the stub would import or export more than is asked; it does not come, as tests show\t\
    None is known: it is a fault of this program.\t\
    Report it, with the files.\t\
    none: a fault of this program\n\
    stub\tStubFault\t8\tMemory\t\
    there was no memory\t\
    The process was given no more memory by the machine that it runs on.\t\
    Give it more memory, or less at a time; what was read so far may be right.\t\
    none: how memory is found\n\
";
