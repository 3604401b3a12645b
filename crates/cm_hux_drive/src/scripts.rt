//! Reading scripts.

use cm_hux_files::{Fault, Files, of_file, read_bytes, text_of};
use cm_hux_script::{BadLine, CoreNames, HuxScript};
use std::alloc::Global;

/// The script of a file, for the components whose core functions have these names.
pub fn load_script<F: Files, N: CoreNames>(
    alloc: Global,
    files: &mut F,
    name: &str,
    names: &N,
) -> Result<HuxScript, Fault> {
    let bytes = read_bytes(alloc, files, name)?;
    let text = match text_of(name, bytes.as_slice()) {
        Ok(text) => text,
        Err(bad) => return Err(of_file(alloc, bad)),
    };
    match HuxScript::parse(alloc, text, names) {
        Ok(script) => Ok(script),
        Err(refusal) => {
            let bad = BadLine::new(alloc, text, names.count(), refusal)?;
            Err(Fault::Refused(format!(in alloc; "{bad}")?))
        }
    }
}
