//! The files of guest programs that the command words name.

use ctxbound_answers::{MOST_READ, read_file};
use std::alloc::{Alloc, AllocError, Global};
use std::fs::Files;
use std::io::{ErrorKind, Input};
use std::{fs, io};

/// How the names of guest programs in a folder end.
const GUEST_SUFFIX: &str = ".guest";

/// What is said of a folder that has no guest program.
const NO_GUESTS: &str = "no file in it ends in .guest";

/// A file of a guest program, by its name; or a name that stands for no file, and why.
#[derive(Drop)]
pub struct GuestFile {
    /// The name.
    pub name: String,
    // Why the name stands for no file, if it stands for none.
    error: Option<io::Error>,
}

impl GuestFile {
    /// The text of the guest program in the file, or on standard input where its name is `-`.
    ///
    /// # Errors
    ///
    /// Why the name stands for no file, or why the file can't be read.
    pub fn read<H: Files + Input + Alloc<A = Global>>(&self, rt: &H) -> io::Result<Vec<u8>> {
        match self.error {
            Some(error) => Err(error),
            None => read_file(rt, self.name.as_str(), MOST_READ),
        }
    }
}

/// The files that a name stands for: the file of that name, or all guest programs in the folder of
/// that name and in the folders in it, sorted by name. Links to folders in it aren't followed.
/// Where the folder has no guest program, or one of the folders can't be read, the folder is
/// answered as one file, by its name and with the error. Fails where memory runs out.
pub fn guest_files<H>(rt: &H, name: &str) -> Result<Vec<GuestFile>, AllocError>
where
    H: Files + Alloc<A = Global> + Clone + Drop,
{
    match guest_names(rt, name) {
        Ok(names) => names
            .into_iter()
            .map(|name| GuestFile { name, error: None })
            .collect(rt.alloc()),
        Err(error) => {
            let name = String::from_str(rt.alloc(), name)?;
            let error = Some(error);
            Ok(vec![in rt.alloc(); GuestFile { name, error }]?)
        }
    }
}

// The sorted names of the files that a name stands for: the name itself, or, of a folder, those of
// all guest programs in it and in the folders in it. An error where there are none, one of the
// folders can't be read, or memory runs out. The loop ends when no folder is left.
fn guest_names<H>(rt: &H, name: &str) -> io::Result<Vec<String>>
where
    H: Files + Alloc<A = Global> + Clone + Drop,
{
    let mut guests = Vec::new(rt.alloc());
    let mut folders = Vec::new(rt.alloc());
    let first = String::from_str(rt.alloc(), name)?;
    if fs::metadata(rt, name).is_ok_and(|metadata| metadata.is_dir()) {
        folders.push(first)?;
    } else {
        guests.push(first)?;
    }
    for _ in 0..u64::MAX {
        let Some(folder) = folders.pop() else {
            break;
        };
        push_guests_and_folders(rt, folder.as_str(), &mut guests, &mut folders)?;
    }
    if guests.is_empty() {
        return Err(io::Error::new(ErrorKind::NotFound, NO_GUESTS));
    }
    guests.sort()?;
    Ok(guests)
}

// Pushes the names of the guest programs in a folder to `guests`, and those of the folders in it to
// `folders`; other names are skipped. An error where the folder can't be read or memory runs out.
fn push_guests_and_folders<H>(
    rt: &H,
    folder: &str,
    guests: &mut Vec<String>,
    folders: &mut Vec<String>,
) -> io::Result<()>
where
    H: Files + Alloc<A = Global> + Clone + Drop,
{
    for entry in fs::read_dir(rt, folder)? {
        let entry = entry?;
        let path = entry.path();
        let name = String::from_str(rt.alloc(), path.as_str())?;
        if entry.file_type()?.is_dir() {
            folders.push(name)?;
        } else if path.as_str().ends_with(GUEST_SUFFIX) {
            guests.push(name)?;
        }
    }
    Ok(())
}
