//! The files of a folder.

use case_texts::{Fault, NamedText};
use std::alloc::{AllocError, Global};
use std::rt::Files;
use std::{fs, io};

/// A fault of a file or a folder that can't be read.
fn unreadable(alloc: Global, path: &str) -> Result<Fault, AllocError> {
    Ok(Fault::Unreadable(String::from_str(alloc, path)?))
}

/// The names in a folder, in order.
fn names_in<R: Files + AllocGlobal + Clone + Drop>(
    rt: &R,
    folder: &str,
) -> io::Result<Vec<String>> {
    let mut names = Vec::new(rt.alloc());
    for entry in fs::read_dir(rt, folder)? {
        let entry = entry?;
        names.push(String::from_str(rt.alloc(), entry.file_name())?)?;
    }
    names.sort()?;
    Ok(names)
}

/// All files of a folder, in the order of their names.
pub(crate) fn files_in<R: Files + AllocGlobal + Clone + Drop>(
    rt: &R,
    folder: &str,
) -> Result<Vec<NamedText>, Fault> {
    let alloc = rt.alloc();
    let Ok(names) = names_in(rt, folder) else {
        return Err(unreadable(alloc, folder)?);
    };
    let mut files = Vec::new(alloc);
    for name in names {
        let path = format!(in alloc; "{folder}/{name}")?;
        match fs::read(rt, path.as_str()) {
            Ok(bytes) => files.push(NamedText { name, bytes })?,
            Err(_) => return Err(unreadable(alloc, path.as_str())?),
        }
    }
    Ok(files)
}
