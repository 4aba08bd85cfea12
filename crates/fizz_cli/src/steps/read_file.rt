//! The bytes of a file.

ghost use Rattle.std.specs.Prelude.{◌≡◌};
ghost use Rattle.fizz_cli.specs.Reports.{files_change};
ghost use Rattle.fizz_cli.specs.Steps.{IsFile, IsNotRead, ReadsFiles};

use crate::refusal::{FileFault, Refusal};
use crate::stop::{OrMemory, cannot_read, refused};
use fizz_outside::{FileBytes, Files, FilesRefused};
use fizz_text::Text;
use std::alloc::Global;

/// The bytes of a file, if it can be read and has at most `most` bytes.
pub(crate) fn read_file<F: Files>(
    alloc: Global,
    files: &mut F,
    name: &Text,
    most: usize,
) -> Result<Vec<u8>, OrMemory<Refusal>>
    ensures { ReadsFiles (λ at bytes. IsFile most (at name.now) bytes.items)
        (λ at faulted. IsNotRead faulted most name.now (at name.now))
        (files_change (F.files files.old) (F.faults files.old) (F.files files.new) (F.faults files.new)) result }
{
    match files.read(name, most) {
        Ok(FileBytes::Whole(bytes)) => Ok(bytes),
        Ok(FileBytes::TooLong) => Err(refused(alloc, name, FileFault::TooLong { most })),
        Err(FilesRefused::NoFile) => Err(cannot_read(alloc, name)),
        Err(FilesRefused::Failed) => Err(cannot_read(alloc, name)),
        Err(FilesRefused::OutOfMemory) => Err(OrMemory::NoMemory),
    }
}
