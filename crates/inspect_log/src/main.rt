// Prints detectors.bin and log.bin of a folder in readable form: the current one, or the one named as its argument.
#![tactic(auto)]

use inspection::inspect;
use std::io::ErrorKind;
use std::path::{Path, PathBuf};
use std::{env, fs, io};

fn main(rt: HostRuntime) -> anyhow::Result<()> {
    let folder = input_folder(&rt)?;
    let table = read_or_empty(&rt, &folder, "detectors.bin")?;
    let log = read_or_empty(&rt, &folder, "log.bin")?;
    let text = inspect(rt.alloc(), &table, &log)?;
    rt.print(text)?;
    Ok(())
}

// A match: `map_or_else` would need the same two `Ok`s, in two closures, and is no plainer.
fn input_folder(rt: &HostRuntime) -> io::Result<PathBuf> {
    match env::args(rt)?.nth(1) {
        Some(folder) => Ok(PathBuf::from(folder)),
        None => Ok(PathBuf::from_str(rt.alloc(), ".")?),
    }
}

// The bytes of a file; a missing file counts as empty.
fn read_or_empty(rt: &HostRuntime, folder: &PathBuf, name: &str) -> io::Result<Vec<u8>> {
    let path = folder.join(rt.alloc(), name)?;
    fs::read(rt, &path).or_else(|e| match e.kind() {
        ErrorKind::NotFound => Ok(Vec::new(rt.alloc())),
        _ => {
            let unread = path.as_str();
            eprintln!(rt; "cannot read {unread}")?;
            Err(e)
        }
    })
}
