//! Linking the files of a command, and bundles of them.

use crate::objects::{ShownLine, shown_line, tell_arguments, tell_open, tell_plan, tell_written};
use cm_hux_play::files::{
    Bundle, Checked, Ending, Fault, Files, Front, Linked, LoadedFiles, OpenImport, Served, Streams,
    load_files, made, read_bundle, read_bytes, refuse_to_overwrite, tell_bytes, unwritten,
    write_arguments, write_file, write_whole,
};
use cm_hux_play::{component_names, write_graph};
use cm_hux_words::{Habits, LinkWords, PlugWords, ServeWords};
use cm_tool_script::read_u32;
use std::alloc::Global;
use std::io;
use std::io::Write;

/// Links the components of files, and prints which export serves each import, or a graph of it.
/// Before it prints it writes them as one file, where one is named. Where imports may be left open
/// a line for each that is stands before, but for a graph.
pub(crate) fn run_link<F: Files, S: Streams, O: Write>(
    alloc: Global,
    words: &LinkWords<'_>,
    habits: Habits,
    files: &mut F,
    streams: &mut S,
    out: &mut O,
) -> Result<Ending, Fault> {
    let linking = Linking {
        alloc,
        habits,
        out: words.out,
        export: export_of(alloc, words.export)?,
        is_open: words.open,
        mermaid: words.mermaid,
    };
    linking.run(&words.files, &words.serve, files, streams, out)
}

/// Links the components of files as `run_link` does; imports may be left open.
pub(crate) fn run_plug<F: Files, S: Streams, O: Write>(
    alloc: Global,
    words: &PlugWords<'_>,
    habits: Habits,
    files: &mut F,
    streams: &mut S,
    out: &mut O,
) -> Result<Ending, Fault> {
    let linking = Linking {
        alloc,
        habits,
        out: words.out,
        export: None,
        is_open: true,
        mermaid: false,
    };
    linking.run(&words.files, &words.serve, files, streams, out)
}

/// How files are linked.
#[derive(Clone, Copy)]
struct Linking<'a> {
    alloc: Global,
    habits: Habits,
    /// The file that the set is written to.
    out: Option<&'a str>,
    /// The number of the component whose exports that file has; those of the last file else.
    export: Option<usize>,
    /// Whether imports that nothing serves are left open.
    is_open: bool,
    mermaid: bool,
}

impl<'a> Linking<'a> {
    fn run<F: Files, S: Streams, O: Write>(
        self,
        names: &[&'a str],
        serve: &ServeWords<'a>,
        files: &mut F,
        streams: &mut S,
        out: &mut O,
    ) -> Result<Ending, Fault> {
        keep_inputs(self.alloc, self.out, names)?;
        let (mut loaded, unread) = load_files(self.alloc, files, names);
        loaded.serve_by(self.alloc, serve)?;
        self.link(&loaded, unread, streams, out)?;
        Ok(Ending::Done)
    }

    /// Links what is loaded, and writes and prints it.
    fn link<S: Streams, O: Write>(
        self,
        loaded: &LoadedFiles<'a>,
        unread: Option<Fault>,
        streams: &mut S,
        out: &mut O,
    ) -> Result<(), Fault> {
        let components = loaded.check(self.alloc, unread)?;
        let served = loaded.served(self.alloc, &components)?;
        let front = self.front(loaded, &components, &served, out)?;
        let linked = linked_behind(self.alloc, loaded, &front, components, &served)?;
        let set = LinkedFiles {
            alloc: self.alloc,
            loaded,
            front: &front,
            linked: &linked,
            habits: self.habits,
        };
        set.write(self.out, self.export, streams, out)?;
        if self.mermaid {
            set.tell_graph(out)
        } else {
            set.tell_links(out)
        }
    }

    /// What stands in front of the components for their imports that nothing serves, of which it
    /// prints a line each; nothing where all is served, and where no import may be left open.
    fn front<O: Write>(
        self,
        loaded: &LoadedFiles<'a>,
        components: &[Checked<'_>],
        served: &Served,
        out: &mut O,
    ) -> Result<Option<Front>, Fault> {
        if !self.is_open {
            return Ok(None);
        }
        if !self.mermaid {
            let open = served.open(self.alloc, components)?;
            tell_or_write_open(self.alloc, &open, self.habits, out)?;
        }
        loaded.front(self.alloc, served)
    }
}

/// Refuses to write the set over one of its files.
fn keep_inputs(alloc: Global, out: Option<&str>, files: &[&str]) -> Result<(), Fault> {
    match out {
        Some(out) => refuse_to_overwrite(alloc, out, files),
        None => Ok(()),
    }
}

/// The linked set of the components of files, behind what stands in front of them.
fn linked_behind<'b>(
    alloc: Global,
    loaded: &'b LoadedFiles<'_>,
    front: &'b Option<Front>,
    components: Vec<Checked<'b>>,
    served: &Served,
) -> Result<Linked<'b>, Fault> {
    match front {
        Some(front) => loaded.link_behind(alloc, front, components, served),
        None => loaded.link_served(alloc, components, served),
    }
}

/// Files, and what they link to.
#[derive(Clone, Copy)]
struct LinkedFiles<'l, 'b, 'a> {
    alloc: Global,
    loaded: &'l LoadedFiles<'a>,
    /// What stands in front of them, as a component of the set that is not shown.
    front: &'l Option<Front>,
    linked: &'l Linked<'b>,
    habits: Habits,
}

impl<'a> LinkedFiles<'_, '_, 'a> {
    /// Writes the set as one file, where one is named, with the exports of this component, or of
    /// the last file.
    fn write<S: Streams, O: Write>(
        &self,
        name: Option<&'a str>,
        export: Option<usize>,
        streams: &mut S,
        out: &mut O,
    ) -> Result<(), Fault> {
        let Some(name) = name else {
            return Ok(());
        };
        let bytes = self.bundle(export.unwrap_or(self.loaded.exporter()))?;
        write_file(self.alloc, streams, name, &bytes)?;
        tell_of_file(self.alloc, name, bytes.len(), self.habits, out)
    }

    /// How many components of the set are not shown.
    fn hidden(&self) -> usize {
        match self.front {
            Some(_) => 1,
            None => 0,
        }
    }

    /// The set as one file, with the exports of this component.
    fn bundle(&self, export: usize) -> Result<Vec<u8>, Fault> {
        let front = match self.front {
            Some(front) => front.groups(self.alloc)?,
            None => Vec::new(self.alloc),
        };
        let files = self.loaded.bytes(self.alloc)?;
        let names = self.loaded.part_names(self.alloc)?;
        let exporter = export.saturating_add(self.hidden());
        Ok(made(self.alloc, self.linked, &front, &files, exporter, &names)?)
    }

    /// Prints a graph of the links.
    fn tell_graph<O: Write>(&self, out: &mut O) -> Result<(), Fault> {
        let names = component_names(self.alloc, self.loaded)?;
        if !self.habits.json {
            write_graph(out, &names, self.linked, self.hidden())?;
            return Ok(());
        }
        let mut graph = Vec::new(self.alloc);
        write_graph(&mut graph, &names, self.linked, self.hidden())?;
        tell_bytes(self.alloc, "mermaid", &graph, out)
    }

    /// Prints which export serves each import.
    fn tell_links<O: Write>(&self, out: &mut O) -> Result<(), Fault> {
        if self.habits.json {
            return tell_plan(self.alloc, self.linked, self.hidden(), out);
        }
        write_plan(out, self.linked, self.hidden())?;
        Ok(())
    }
}

/// The number of the component whose exports a bundle has, if the words say it.
fn export_of(alloc: Global, word: Option<&str>) -> Result<Option<usize>, Fault> {
    let Some(word) = word else {
        return Ok(None);
    };
    match read_u32(word) {
        Some(number) => Ok(Some(number as usize)),
        None => Err(Fault::Usage(format!(in alloc; "error: --export {word}: no number")?)),
    }
}

/// Prints that a file of so many bytes was written, where objects are wanted.
fn tell_of_file<O: Write>(
    alloc: Global,
    name: &str,
    bytes: usize,
    habits: Habits,
    out: &mut O,
) -> Result<(), Fault> {
    if habits.json {
        tell_written(alloc, name, bytes, out)?;
    }
    Ok(())
}

/// Writes which export serves each import of a linked set, behind so many components that are not
/// shown, a line each.
fn write_plan<O: Write>(out: &mut O, linked: &Linked<'_>, hidden: usize) -> io::Result<()> {
    for at in 0..linked.plan().len() {
        if let Some(line) = shown_line(linked, hidden, at) {
            let ShownLine {
                importer,
                import,
                provider,
                export,
            } = line;
            writeln!(out, "{importer} {import} <- {provider} {export}")?;
        }
    }
    out.flush()
}

/// Prints the imports that nothing serves.
fn tell_or_write_open<O: Write>(
    alloc: Global,
    imports: &[OpenImport<'_>],
    habits: Habits,
    out: &mut O,
) -> Result<(), Fault> {
    if habits.json {
        return tell_open(alloc, imports, out);
    }
    write_open(imports, out)?;
    Ok(())
}

fn write_open<O: Write>(imports: &[OpenImport<'_>], out: &mut O) -> io::Result<()> {
    for open in imports {
        writeln!(out, "{} {} is open", open.component, open.name)?;
    }
    out.flush()
}

/// Writes the files of a bundle into a folder, and prints what each is given.
pub(crate) fn run_unbundle<F: Files, S: Streams, O: Write>(
    alloc: Global,
    name: &str,
    folder: &str,
    habits: Habits,
    files: &mut F,
    streams: &mut S,
    out: &mut O,
) -> Result<Ending, Fault> {
    let bytes = read_bytes(alloc, files, name)?;
    let bundle = read_bundle(alloc, name, &bytes)?;
    write_parts(alloc, &bundle, folder, habits, streams, out)?;
    if habits.json {
        tell_arguments(alloc, &bundle, out)?;
    } else {
        write_arguments(out, &bundle)?;
    }
    Ok(Ending::Done)
}

/// Writes each part of a bundle into a folder, by its number.
fn write_parts<S: Streams, O: Write>(
    alloc: Global,
    bundle: &Bundle<'_>,
    folder: &str,
    habits: Habits,
    streams: &mut S,
    out: &mut O,
) -> Result<(), Fault> {
    if let Err(error) = streams.create_folder(folder) {
        return Err(unwritten(alloc, folder, &error));
    }
    for (number, part) in bundle.parts.iter().enumerate() {
        let path = format!(in alloc; "{folder}/{number}.wasm")?;
        if let Err(error) = write_whole(alloc, streams, path.as_str(), part.file) {
            return Err(unwritten(alloc, folder, &error));
        }
        tell_of_file(alloc, path.as_str(), part.file.len(), habits, out)?;
    }
    Ok(())
}
