//! The commands of `hux`: their words, and their help.

use crate::words::{Form, Tie, Word};

/// What the program's own help ends with.
pub(crate) const ABOUT_ALL: &str =
    "A file named - is standard input. A file may have shims: nested components
that rename what they are given, which tools write for each exported interface. It may be a
bundle: its files are components of the set then, called set/user, by the names that the
bundle has for them, or set/1.

Exit status: 0 done, 1 something was refused, 2 the words are no command, 3 a drive trapped,
4 a file cannot be read or written, or standard output not be written.

Example:
  hux check first.wasm second.wasm";

/// A command: its help, which ends with an example, and its words and options.
pub(crate) struct Described {
    pub(crate) name: &'static str,
    pub(crate) about: &'static str,
    pub(crate) example: &'static str,
    pub(crate) words: &'static [Word],
}

const FILES: Word = Word {
    name: "files",
    value: "FILE",
    help: "Component files, in order",
    form: Form::Words,
    letter: None,
    tie: Tie::Free,
};

const FILE: Word = Word {
    name: "file",
    value: "FILE",
    help: "A component file",
    form: Form::Word,
    letter: None,
    tie: Tie::Free,
};

const WIT: Word = Word {
    name: "wit",
    value: "W",
    help: "The file of the WIT text, or the folder of a project",
    form: Form::Needed,
    letter: None,
    tie: Tie::Free,
};

const TEXTS: Word = Word {
    name: "wit",
    value: "W",
    help: "The file of the WIT text, or the folder of a project",
    form: Form::Word,
    letter: None,
    tie: Tie::Free,
};

const WORLD: Word = Word {
    name: "world",
    value: "N",
    help: "The full name of the world, as a:b/w@1.0.0; of a project's own, w",
    form: Form::Needed,
    letter: None,
    tie: Tie::Free,
};

const FEATURES: Word = Word {
    name: "features",
    value: "F,F,..",
    help: "Features whose unstable items are wanted",
    form: Form::Choice,
    letter: None,
    tie: Tie::Free,
};

const ANY_FILES: Word = Word {
    name: "files",
    value: "FILE",
    help: "Component files, in order",
    form: Form::AnyWords,
    letter: None,
    tie: Tie::Free,
};

const TEXTS_OF_WORLD: Word = Word {
    name: "wit",
    value: "W",
    help: "In the place of files: a WIT text, or the folder of a project",
    form: Form::Choice,
    letter: None,
    tie: Tie::With("world"),
};

const STOOD_FOR: Word = Word {
    name: "world",
    value: "N",
    help: "The world of the text that it stands in for a host of",
    form: Form::Choice,
    letter: None,
    tie: Tie::With("wit"),
};

const SHOWN_WORLD: Word = Word {
    name: "world",
    value: "N",
    help: "The name of the world, in full where it is not a project's own; else all are named",
    form: Form::Choice,
    letter: None,
    tie: Tie::Free,
};

const BUNDLE: Word = Word {
    name: "out",
    value: "OUT",
    help: "Writes the components as one file",
    form: Form::Choice,
    letter: Some('o'),
    tie: Tie::Free,
};

const EXPORT: Word = Word {
    name: "export",
    value: "I",
    help: "Exports what this component does, not the last",
    form: Form::Choice,
    letter: None,
    tie: Tie::With("out"),
};

const OPEN: Word = Word {
    name: "open",
    value: "",
    help: "Leaves imports open that nothing serves: OUT imports them",
    form: Form::Flag,
    letter: None,
    tie: Tie::Free,
};

const GRAPH: Word = Word {
    name: "mermaid",
    value: "",
    help: "Prints a Mermaid graph of components and imports",
    form: Form::Flag,
    letter: None,
    tie: Tie::Free,
};

const SERVE: Word = Word {
    name: "serve",
    value: "IMPORT=PROVIDER",
    help: "Which file serves an import, or IMPORTER/IMPORT; may be given again",
    form: Form::Choices,
    letter: None,
    tie: Tie::Free,
};

const NEAREST: Word = Word {
    name: "nearest",
    value: "",
    help: "Of several files that fit the last one serves",
    form: Form::Flag,
    letter: None,
    tie: Tie::Free,
};

const FOLDER: Word = Word {
    name: "out",
    value: "DIR",
    help: "The folder of the files",
    form: Form::Needed,
    letter: Some('o'),
    tie: Tie::Free,
};

const PLUGS: Word = Word {
    name: "plug",
    value: "PROVIDER",
    help: "A component that exports; may be given again",
    form: Form::NeededAgain,
    letter: None,
    tie: Tie::Free,
};

const SOCKET: Word = Word {
    name: "file",
    value: "SOCKET",
    help: "The component that imports",
    form: Form::Word,
    letter: None,
    tie: Tie::Free,
};

const SCRIPT: Word = Word {
    name: "script",
    value: "S",
    help: "The file of the script",
    form: Form::Needed,
    letter: None,
    tie: Tie::Free,
};

const VALUES: Word = Word {
    name: "values",
    value: "",
    help: "Prints calls and results with their values",
    form: Form::Flag,
    letter: None,
    tie: Tie::Free,
};

const DIAGRAM: Word = Word {
    name: "mermaid",
    value: "",
    help: "Prints a Mermaid sequence diagram of the calls",
    form: Form::Flag,
    letter: None,
    tie: Tie::Without("values"),
};

const MESSAGES: Word = Word {
    name: "messages",
    value: "N",
    help: "The most messages of the diagram [default: 100]",
    form: Form::Choice,
    letter: None,
    tie: Tie::With("mermaid"),
};

const OTHERS: Word = Word {
    name: "script",
    value: "S",
    help: "The file of the script of the other guests",
    form: Form::Choice,
    letter: None,
    tie: Tie::Free,
};

const CALLED: Word = Word {
    name: "call",
    value: "CALL",
    help: "The call, as 'greet(\"world\")'",
    form: Form::Word,
    letter: None,
    tie: Tie::Free,
};

const RECORD: Word = Word {
    name: "record",
    value: "SCRIPT",
    help: "Writes the moves as a script for play",
    form: Form::Choice,
    letter: None,
    tie: Tie::Free,
};

const LIMIT: Word = Word {
    name: "limit",
    value: "N",
    help: "Ends after so many moves",
    form: Form::Choice,
    letter: None,
    tie: Tie::Free,
};

const PAGES: Word = Word {
    name: "pages",
    value: "N,N,..",
    help: "The pages of each component's memory; else what its core modules declare",
    form: Form::Choice,
    letter: None,
    tie: Tie::Free,
};

const OVERHEARD: Word = Word {
    name: "values",
    value: "",
    help: "Tells calls and their values on standard error",
    form: Form::Flag,
    letter: None,
    tie: Tie::Free,
};

const NO_OBJECTS: Word = Word {
    name: "json",
    value: "",
    help: "Is refused: the lines of live have a form of their own",
    form: Form::Hidden,
    letter: None,
    tie: Tie::Free,
};

const NO_TRAPS: Word = Word {
    name: "quiet",
    value: "",
    help: "Tells nothing of traps on standard error",
    form: Form::Flag,
    letter: Some('q'),
    tie: Tie::Free,
};

const STUB_FILE: Word = Word {
    name: "out",
    value: "OUT",
    help: "The file that is written",
    form: Form::Needed,
    letter: Some('o'),
    tie: Tie::Free,
};

const CALLER: Word = Word {
    name: "caller",
    value: "",
    help: "A component that calls",
    form: Form::Flag,
    letter: None,
    tie: Tie::Free,
};

const WHAT: Word = Word {
    name: "what",
    value: "WHAT",
    help: "A name, or a kind and a number",
    form: Form::Words,
    letter: None,
    tie: Tie::Free,
};

const OLD: Word = Word {
    name: "old",
    value: "A",
    help: "What users and hosts are made for",
    form: Form::Word,
    letter: None,
    tie: Tie::Free,
};

const NEW: Word = Word {
    name: "new",
    value: "B",
    help: "What they are to get",
    form: Form::Word,
    letter: None,
    tie: Tie::Free,
};

const WORLDS: Word = Word {
    name: "world",
    value: "N",
    help: "The full name of the world of a WIT text; given again, that of B",
    form: Form::Choices,
    letter: None,
    tie: Tie::Free,
};

/// The commands, in the order of the help.
pub(crate) const COMMANDS: [Described; 14] = [
    Described {
        name: "check",
        about: "Says of each file, in a line, that it is a valid component, or what is wrong \
            with it",
        example: "Example:
  hux check first.wasm second.wasm
prints
  first.wasm: ok
  second.wasm: Truncated at 9: the input ends too early",
        words: &[FILES],
    },
    Described {
        name: "show",
        about: "Prints what a component imports and exports, as WIT writes it, each type once",
        example: "Example:
  hux show points.wasm
prints
  export docs:geometry/points@1.0.0: interface {
    record point { x: s32, y: s32 }
    move: func(p: point, dx: s32) -> point;
  }
A name that begins with # is made: what it stands for has none in the file.",
        words: &[FILE],
    },
    Described {
        name: "core",
        about: "Prints a line for each core function of a component: what a script has to know \
            of it",
        example: "Its number, the core values that it takes and answers, its memory, its encoding of
strings, and what it is, with a tab between them; - stands for what the component does not say.

Example:
  hux core inc.wasm
prints
  0  (i32) -> i32  -  utf8  export \"inc\" of core instance 0, lifted as inc",
        words: &[FILE],
    },
    Described {
        name: "conform",
        about: "Says whether a component fits a world of a WIT text",
        example: "Example:
  hux conform --wit adder.wit --world docs:adder/adder@1.0.0 adder.wasm
prints
  ok",
        words: &[FILE, WIT, WORLD, FEATURES],
    },
    Described {
        name: "wit",
        about: "Prints the worlds of a WIT project, or what one imports and exports",
        example: "\
A project is a folder: its files are one package, and those that they name stand in its
deps folder, each in a file or a folder. What is behind @unstable is there where its feature
is named.

Example:
  hux wit wit --world adder
prints
  export add: func(x: u32, y: u32) -> u32;",
        words: &[TEXTS, SHOWN_WORLD, FEATURES],
    },
    Described {
        name: "link",
        about: "Links components: each imports from those before it",
        example: "With -o it writes them as one component that other runtimes read: a bundle. It has
each file, byte for byte, and its name, and exports what the last one does, or the one that
--export counts from 0; what the others export is hidden then. Where other components want
the same host, leave it out: with --open OUT imports what nothing serves.

Where several files export what an import fits, --serve says which serves it, or
PROVIDER/EXPORT. A file is named by its name without folder and .wasm, or by its
number from 0. A word for one IMPORTER comes before the others, and these before --nearest.

Example:
  hux link provider.wasm user.wasm -o set.wasm
prints
  1 inc <- 0 inc
and with --open and user.wasm alone
  0 inc is open",
        words: &[FILES, BUNDLE, EXPORT, OPEN, SERVE, NEAREST, GRAPH],
    },
    Described {
        name: "unbundle",
        about: "Writes the files of a bundle into a folder",
        example: "They are named 0.wasm, 1.wasm and so on, in order. It prints which export each
import is given, or that it is open.

Example:
  hux unbundle set.wasm -o parts
prints
  1 inc <- 0 inc",
        words: &[FILE, FOLDER],
    },
    Described {
        name: "plug",
        about: "Links providers into a component, by the imports that fit",
        example: "It prints a line for each import that nothing serves, which OUT imports then, and
behind these what link prints.

Example:
  hux plug --plug provider.wasm user.wasm -o set.wasm
prints
  1 inc <- 0 inc
or, where the provider does not export it,
  1 inc is open",
        words: &[PLUGS, SOCKET, BUNDLE, SERVE],
    },
    Described {
        name: "play",
        about: "Links components and plays a script of guests on them",
        example: "Example:
  hux play --script script provider.wasm user.wasm
prints
  resume 1
  enter 0 0 i32:41
  resume 1 i32:42
  ended
and with --values
  1 user -> 0 provider  inc(41)
  <- 42",
        words: &[FILES, SCRIPT, SERVE, NEAREST, VALUES, DIAGRAM, MESSAGES],
    },
    Described {
        name: "call",
        about: "Links components, calls what one exports, and prints the result",
        example: "\
The values are written as WIT's tools write them. A caller that imports the function
is made and linked behind the files; the script has the moves of the others.

Example:
  hux call --script script provider.wasm 'inc(41)'
prints
  42",
        words: &[FILES, OTHERS, SERVE, NEAREST, CALLED],
    },
    Described {
        name: "live",
        about: "Links components and plays them line by line: an engine makes the moves",
        example: "\
Prints what an engine needs to instantiate the core modules, and then ready. Then it
reads statements, a line each, and answers each: what was written into memories, and an event.

Example:
  hux live provider.wasm user.wasm
prints, to the lines begin 1 and call 0 i32:41,
  resume 1
  enter 0 0 i32:41",
        words: &[
            FILES, SERVE, NEAREST, RECORD, LIMIT, PAGES, OVERHEARD, NO_TRAPS, NO_OBJECTS,
        ],
    },
    Described {
        name: "stub",
        about: "Writes a component that stands in for a host",
        example: "\
It exports what nothing serves of what the files import, or with --caller imports what the
last one exports. With --wit it does so of a world, with no component at hand.

Example:
  hux stub command.wasm -o host.wasm
  hux stub --caller command.wasm -o caller.wasm
  hux link host.wasm command.wasm caller.wasm",
        words: &[
            ANY_FILES,
            STUB_FILE,
            SERVE,
            NEAREST,
            CALLER,
            TEXTS_OF_WORLD,
            STOOD_FOR,
            FEATURES,
        ],
    },
    Described {
        name: "explain",
        about: "Says what a trap, a misuse or a reason means, its usual cause, and what to do",
        example: "\
It is named by its name, or by its kind and number: trap, misuse, decode, valid, link,
wit and so on. A name of several kinds is told of each; a kind alone lists what it has.

Example:
  hux explain trap 15
prints
  trap 15, BorrowsLeft: a call returned before it dropped the handles that it had borrowed
and its usual cause, what to do, and the section of the standard.",
        words: &[WHAT],
    },
    Described {
        name: "diff",
        about: "Says what a component or world in place of another breaks, and for whom",
        example: "\
Each of the two is a component file, or a WIT text or project with a world. Status 1 where
something breaks for users, who import what A exports, or for hosts, which export what A
imports. What may clash breaks only where another component exports it too.

Example:
  hux diff old.wasm new.wasm
prints
  export greet is gone (breaks users)
  export welcome is new (may clash)",
        words: &[OLD, NEW, WORLDS, FEATURES],
    },
];
