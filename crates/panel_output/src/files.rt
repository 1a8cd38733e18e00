// Files that appear whole or not at all: written under a temporary name, and renamed once all of it is there.
ghost use Rattle.std.specs.Prelude.{◌≡◌, ◌+◌, ◌≤◌, length};

use crate::report;
use std::fs::OpenFile;
use std::io::ErrorKind;
use std::rt::Files;
use std::{fs, io, str};

// Puts bytes into a path from a place on, and answers the place after them.
fn append(path: &mut [u8], at: usize, bytes: &[u8]) -> usize
    requires { at + length bytes.now ≤ length path.old }
    ensures { result ≡ at + length bytes.now }
{
    let end = at + bytes.len();
    path[at..end].copy_from_slice(bytes);
    end
}

// Makes the path of a file in a folder, with an ending, in a buffer.
fn join<'a>(folder: &[u8], name: &[u8], ending: &[u8], buffer: &'a mut [u8]) -> &'a [u8]
    requires { (length folder.now ≤ 3072) × (length name.now ≤ 64) × (length ending.now ≤ 64) × (length buffer.old ≡ 4096) }
    ensures { length result.now ≤ 4096 }
{
    let mut end = append(buffer, 0, folder);
    end = append(buffer, end, b"/");
    end = append(buffer, end, name);
    end = append(buffer, end, ending);
    &buffer[..end]
}

// A path as text, which is all that std takes.
fn text(path: &[u8]) -> io::Result<&str> {
    str::from_utf8(path).map_err(|_| io::Error::from(ErrorKind::InvalidFilename))
}

fn create_folder(rt: &impl Files, folder: &[u8]) -> io::Result<()> {
    fs::create_dir(rt, text(folder)?)
}

// Makes a folder, unless it is there; false once the reason is reported.
pub fn make_folder(rt: &(impl Files + Eprint), folder: &[u8]) -> io::Result<bool> {
    match create_folder(rt, folder) {
        Ok(()) => Ok(true),
        Err(e) if e.kind() == ErrorKind::AlreadyExists => Ok(true),
        Err(e) => {
            report::failure(rt, folder, &e)?;
            Ok(false)
        }
    }
}

fn create<R: Files>(rt: &R, path: &[u8]) -> io::Result<R::File> {
    fs::create(rt, text(path)?)
}

// Opens a file in a folder for writing, under its temporary name; none once the reason is reported.
pub fn open<R: Files + Eprint>(rt: &R, folder: &[u8], name: &[u8]) -> io::Result<Option<R::File>>
    requires { (length folder.now ≤ 3072) × (length name.now ≤ 64) }
{
    let mut buffer = [0; 4096];
    let part = join(folder, name, b".part", &mut buffer);
    match create(rt, part) {
        Ok(file) => Ok(Some(file)),
        Err(e) => {
            report::failure(rt, part, &e)?;
            Ok(None)
        }
    }
}

// Removes what there is of a file. Where that fails too, there is nothing left to do.
fn remove(rt: &impl Files, part: &[u8]) {
    if let Ok(path) = text(part) {
        let _ = fs::remove_file(rt, path);
    }
}

// Closes a file of which all was written, once the system has it, and gives it its name.
fn finish<F: OpenFile + Drop>(
    rt: &impl Files,
    file: F,
    path: &[u8],
    part: &[u8],
) -> io::Result<()> {
    file.sync_all()?;
    drop(file);
    fs::rename(rt, text(part)?, text(path)?)
}

// Reports why a file could not be written, and removes what there is of it.
fn give_up(
    rt: &(impl Files + Eprint),
    path: &[u8],
    part: &[u8],
    why: &io::Error,
) -> io::Result<bool> {
    remove(rt, part);
    report::failure(rt, path, why)?;
    Ok(false)
}

// Finishes a file where all of it was written; whether it is there now.
fn close_paths<R: Files + Eprint>(
    rt: &R,
    written: io::Result<R::File>,
    path: &[u8],
    part: &[u8],
) -> io::Result<bool> {
    match written.and_then(|file| finish(rt, file, path, part)) {
        Ok(()) => Ok(true),
        Err(e) => give_up(rt, path, part, &e),
    }
}

// Closes a file that was opened so, and gives it its name where all of it was written; whether the file is there now.
pub fn close<R: Files + Eprint>(
    rt: &R,
    folder: &[u8],
    name: &[u8],
    written: io::Result<R::File>,
) -> io::Result<bool>
    requires { (length folder.now ≤ 3072) × (length name.now ≤ 64) }
{
    let mut path_buffer = [0; 4096];
    let mut part_buffer = [0; 4096];
    let path = join(folder, name, b"", &mut path_buffer);
    let part = join(folder, name, b".part", &mut part_buffer);
    close_paths(rt, written, path, part)
}

// Writes a file in a folder; whether it is there now.
pub fn save<R: Files + Eprint, F: FnOnce(R::File) -> io::Result<R::File>>(
    rt: &R,
    folder: &[u8],
    name: &[u8],
    write: F,
) -> io::Result<bool>
    requires room { (length folder.now ≤ 3072) × (length name.now ≤ 64) }
    requires callable { F.IsAlwaysCallable write }
{
    let Some(file) = open(rt, folder, name)? else {
        return Ok(false);
    };
    close(rt, folder, name, write(file))
}
