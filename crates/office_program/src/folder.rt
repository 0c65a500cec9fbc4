// Files in memory.
ghost use Rattle.std.specs.Prelude.{◌≡◌, option_map};
ghost use Rattle.office_program.specs.Folders.{bytes_at};

use crate::texts::Texts;
use std::io::{Error, ErrorKind, Result};

/// A file in memory.
#[derive(Clone, Copy)]
pub struct FolderFile<'a> {
    pub path: &'a str,
    pub bytes: &'a [u8],
}

/// Files in memory, for a program that has its texts elsewhere. Of two with one path it's the first.
#[derive(Clone, Copy)]
pub struct Folder<'a> {
    pub files: &'a [FolderFile<'a>],
}

impl<'a> Texts for Folder<'a> {
    ghost use Rattle.std.specs.Prelude.{Some};
    ghost use Rattle.office_program.specs.Folders.{bytes_at};

    type Text = &'a [u8];

    ghost known = { λ folder path. Some (bytes_at path folder.files.now) };

    fn open_text(&self, path: &str) -> Result<&'a [u8]> {
        match bytes_at(self.files, path) {
            Some(bytes) => Ok(bytes),
            None => Err(Error::from(ErrorKind::NotFound)),
        }
    }
}

// Returns the bytes of the first file of a path, if there is one.
fn bytes_at<'a>(files: &[FolderFile<'a>], path: &str) -> Option<&'a [u8]>
    ensures { option_map (λ bytes. bytes.now) result ≡ bytes_at path.now files.now }
{
    let found = files.iter().find(|file| file.path == path)?;
    Some(found.bytes)
}
