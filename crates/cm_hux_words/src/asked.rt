//! The words of each command. Files stand in the order of the command line; options that were not
//! given are `None` or `false`.

/// `conform --wit W --world N [--features F,F,..] FILE`
#[derive(Clone, Copy, Drop)]
pub struct ConformWords<'a> {
    pub wit: &'a str,
    pub world: &'a str,
    /// The features of a project that are wanted, with commas between them.
    pub features: Option<&'a str>,
    pub file: &'a str,
}

/// `wit W [--world N] [--features F,F,..]`
#[derive(Clone, Copy, Drop)]
pub struct WitWords<'a> {
    pub wit: &'a str,
    pub world: Option<&'a str>,
    pub features: Option<&'a str>,
}

/// `[--serve IMPORT=PROVIDER].. [--nearest]`
#[derive(Drop)]
pub struct ServeWords<'a> {
    /// The words behind `--serve`.
    pub words: Vec<&'a str>,
    /// Whether the last component that exports what fits serves an import.
    pub nearest: bool,
}

/// `link FILE.. [-o OUT [--export I]] [--open] [--mermaid]`
#[derive(Drop)]
pub struct LinkWords<'a> {
    pub files: Vec<&'a str>,
    /// The file that the set is written to.
    pub out: Option<&'a str>,
    /// The number of the component whose exports that file has.
    pub export: Option<&'a str>,
    /// Whether imports that nothing serves are left open.
    pub open: bool,
    /// Whether a graph is printed.
    pub mermaid: bool,
    pub serve: ServeWords<'a>,
}

/// `plug --plug PROVIDER.. SOCKET [-o OUT]`
#[derive(Drop)]
pub struct PlugWords<'a> {
    /// The providers, and behind them the socket.
    pub files: Vec<&'a str>,
    /// The file that the set is written to.
    pub out: Option<&'a str>,
    pub serve: ServeWords<'a>,
}

/// `play --script S FILE.. [--values] [--mermaid [--messages N]]`
#[derive(Drop)]
pub struct PlayWords<'a> {
    pub script: &'a str,
    pub files: Vec<&'a str>,
    /// Whether calls and results are printed with their values.
    pub values: bool,
    /// Whether a sequence diagram is printed in the place of events.
    pub mermaid: bool,
    /// The most messages of the diagram.
    pub messages: Option<&'a str>,
    pub serve: ServeWords<'a>,
}

/// `call [--script S] FILE.. CALL`
#[derive(Drop)]
pub struct CallWords<'a> {
    pub script: Option<&'a str>,
    pub files: Vec<&'a str>,
    pub call: &'a str,
    pub serve: ServeWords<'a>,
}

/// `live FILE.. [--record SCRIPT] [--limit N] [--pages N,N,..] [--values]`
#[derive(Drop)]
pub struct LiveWords<'a> {
    pub files: Vec<&'a str>,
    pub record: Option<&'a str>,
    pub limit: Option<&'a str>,
    pub pages: Option<&'a str>,
    /// Whether calls and their values are written to standard error.
    pub values: bool,
    pub serve: ServeWords<'a>,
}

/// `stub FILE.. -o OUT`, `stub --caller FILE.. -o OUT`, or `stub --wit W --world N -o OUT`
#[derive(Drop)]
pub struct StubWords<'a> {
    pub files: Vec<&'a str>,
    /// Whether the stub calls what the last file exports, or exports what nothing serves of what
    /// the files import.
    pub caller: bool,
    /// A WIT text or project in the place of files, and the world of it that the stub stands in for
    /// a host of, or calls.
    pub wit: Option<&'a str>,
    pub world: Option<&'a str>,
    pub features: Option<&'a str>,
    pub out: &'a str,
    pub serve: ServeWords<'a>,
}

/// `diff A B [--world N [--world N]] [--features F,F,..]`
#[derive(Drop)]
pub struct DiffWords<'a> {
    pub old: &'a str,
    pub new: &'a str,
    pub worlds: Vec<&'a str>,
    pub features: Option<&'a str>,
}
