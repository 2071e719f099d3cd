//! What is below a folder.

use crate::file_system::FileFault;
use std::alloc::{AllocError, Global};
use std::fs::Metadata;
use std::io::Read;
use std::os::unix::fs::MetadataExt;
use std::rt::Files;

/// The number of bytes of names that are read at once.
const BUFFER: usize = 1 << 15;

/// What a walk says of a path below a folder.
#[derive(Clone, Copy)]
pub enum Finding {
    /// It is no folder.
    File,
    /// It can't be looked at, or it is a folder that can't be read.
    Unread(FileFault),
    /// Its name isn't UTF-8. In the path each backslash, and each byte that isn't printable ASCII, is `\xNN`.
    NoText,
    /// It leads to a folder that it is in.
    Loop,
    /// It is a link to a folder that another link led to.
    Again,
}

/// A path below a folder, and what a walk says of it.
#[derive(Drop)]
pub struct Below {
    pub path: String,
    pub finding: Finding,
}

/// Which file or folder it is, whatever its path: its device, and its number there.
type NodeId = (u64, u64);

pub(crate) fn node_of(metadata: &Metadata) -> NodeId {
    (metadata.dev(), metadata.ino())
}

/// A folder that is to be read.
#[derive(Drop)]
struct Folder {
    path: String,
    node: NodeId,
    /// The number of the folder in which it was found. None of the first one.
    parent: Option<usize>,
}

/// A walk through folders.
#[derive(Drop)]
struct FolderWalk<'a, R: Files> {
    alloc: Global,
    files: &'a R,
    folders: Vec<Folder>,
    /// The folders that links led to.
    followed: Vec<NodeId>,
    found: Vec<Below>,
}

/// Returns all that is below a folder and is no folder, and the folders that weren't read, in the byte order of their paths.
/// A link to a folder is followed once, and not if it leads to a folder that it is in.
pub fn files_below<R: Files>(
    alloc: Global,
    files: &R,
    folder: &str,
) -> Result<Vec<Below>, AllocError> {
    let mut walk = FolderWalk {
        alloc,
        files,
        folders: Vec::new(alloc),
        followed: Vec::new(alloc),
        found: Vec::new(alloc),
    };
    let path = String::from_str(alloc, folder.trim_end_matches('/'))?;
    match files.metadata(folder) {
        Ok(metadata) => walk.enter(None, path, node_of(&metadata), false)?,
        Err(error) => walk.add(path, Finding::Unread(error.into()))?,
    }
    'folders: for number in 0..usize::MAX {
        let Some(folder) = walk.folders.get(number) else {
            break;
        };
        let path = folder.path.clone()?;
        walk.read(number, path)?;
    }
    let mut found = walk.found;
    found.sort_by(|one, other| one.path.as_bytes().cmp(other.path.as_bytes()))?;
    Ok(found)
}

impl<'a, R: Files> FolderWalk<'a, R> {
    /// Takes note of a path.
    fn add(&mut self, path: String, finding: Finding) -> Result<(), AllocError> {
        Ok(self.found.push(Below { path, finding })?)
    }

    /// Reads a folder, whose path this is.
    fn read(&mut self, number: usize, path: String) -> Result<(), AllocError> {
        let names = match names_in(self.alloc, self.files, path.as_str()) {
            Ok(names) => names,
            Err(FileFault::Memory) => return Err(AllocError),
            Err(fault) => return self.add(path, Finding::Unread(fault)),
        };
        'names: for name in &names {
            if let Ok(name) = std::str::from_utf8(name) {
                let path = format!(in self.alloc; "{path}/{name}")?;
                self.look_at(number, path)?;
            } else {
                let path = printable(self.alloc, path.as_bytes(), name)?;
                self.add(path, Finding::NoText)?;
            }
        }
        Ok(())
    }

    /// Looks at a path in a folder.
    fn look_at(&mut self, parent: usize, path: String) -> Result<(), AllocError> {
        let itself = self.files.symlink_metadata(path.as_str());
        let is_link = matches!(&itself, Ok(metadata) if metadata.is_symlink());
        let target = if is_link {
            self.files.metadata(path.as_str())
        } else {
            itself
        };
        match target {
            Ok(folder) if folder.is_dir() => {
                self.enter(Some(parent), path, node_of(&folder), is_link)
            }
            Ok(_) => self.add(path, Finding::File),
            Err(error) => self.add(path, Finding::Unread(error.into())),
        }
    }

    /// Takes a folder that is to be read, unless it is within itself, or it is a link to a folder that another link led to.
    fn enter(
        &mut self,
        parent: Option<usize>,
        path: String,
        node: NodeId,
        is_link: bool,
    ) -> Result<(), AllocError> {
        if self.is_within(parent, node) {
            return self.add(path, Finding::Loop);
        }
        if is_link {
            if self.followed.contains(&node) {
                return self.add(path, Finding::Again);
            }
            self.followed.push(node)?;
        }
        Ok(self.folders.push(Folder { path, node, parent })?)
    }

    /// Whether a folder is this node, or was found below it.
    fn is_within(&self, folder: Option<usize>, node: NodeId) -> bool {
        let mut next = folder;
        'parents: for _ in 0..self.folders.len() {
            let Some(number) = next else {
                return false;
            };
            let Some(folder) = self.folders.get(number) else {
                return false;
            };
            if folder.node == node {
                return true;
            }
            next = folder.parent;
        }
        false
    }
}

/// Returns the names in a folder, without `.` and `..`, in their byte order.
fn names_in<R: Files>(alloc: Global, files: &R, folder: &str) -> Result<Vec<Vec<u8>>, FileFault> {
    let path = format!(in alloc; "{folder}/")?;
    let mut directory = files.open_dir(path.as_str())?;
    let mut buffer = vec![in alloc; 0; BUFFER]?;
    let mut names = Vec::new(alloc);
    'chunks: for _ in 0..u64::MAX {
        let count = directory.read(&mut buffer)?;
        if count == 0 {
            break;
        }
        add_names(alloc, &buffer[..count], &mut names)?;
    }
    names.sort()?;
    Ok(names)
}

/// Adds the names of a chunk, of which each is followed by a zero byte.
fn add_names(alloc: Global, chunk: &[u8], names: &mut Vec<Vec<u8>>) -> Result<(), AllocError> {
    'names: for name in chunk.split(|byte| *byte == 0) {
        if !matches!(name, b"" | b"." | b"..") {
            names.push(Vec::from_slice(alloc, name)?)?;
        }
    }
    Ok(())
}

/// A path in printable ASCII: each other byte, and each backslash, is `\xNN`.
fn printable(alloc: Global, folder: &[u8], name: &[u8]) -> Result<String, AllocError> {
    let mut text = String::new(alloc);
    'bytes: for byte in folder.iter().chain(b"/").chain(name) {
        if (32..127).contains(byte) && *byte != b'\\' {
            text.push(char::from(*byte))?;
        } else {
            write!(text, "\\x{byte:02x}")?;
        }
    }
    Ok(text)
}
