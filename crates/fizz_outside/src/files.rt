ghost use Rattle.std.specs.Prelude.{◌≡◌, ◌≢◌, Option, List, ℕ, Err};
ghost use Rattle.fizz_outside.specs.FileContents.{Contents, Reads, Writes, HasFileCause};
ghost use Rattle.fizz_outside.specs.declared.files.FilesRefused.TheVariants.{OutOfMemory as NoMemory};

use fizz_text::{OutOfMemory, Text};
use thiserror::Error;

/// What a read found: the whole file, or that it is longer than was asked for.
#[derive(Debug, Drop)]
pub enum FileBytes {
    Whole(Vec<u8>),
    TooLong,
}

/// Why a call on files was refused.
#[derive(Clone, Copy, Debug, PartialEq, Eq, Error)]
pub enum FilesRefused {
    #[error("there is no such file")]
    NoFile,
    /// A fault of what is below, which the count shows.
    #[error("the files failed")]
    Failed,
    #[error("out of memory")]
    OutOfMemory,
}

impl From<OutOfMemory> for FilesRefused {
    ghost from_gives = { λ _ e. e ≡ NoMemory };

    fn from(_error: OutOfMemory) -> FilesRefused {
        FilesRefused::OutOfMemory
    }
}

/// Files by name.
pub trait Files {
    /// What stands under each name, where it is known.
    ghost files: { Self → Option Contents };

    /// How many faults it met. The count never falls.
    ghost faults: { Self → ℕ };

    /// Reads the file of this name if it has at most `most` bytes. It changes no file. Where the files
    /// are known, `NoFile` comes only where there is none of this name, and raises no count; where they
    /// aren't, it never comes.
    fn read(&mut self, name: &Text, most: usize) -> Result<FileBytes, FilesRefused>
        ensures same { files self.new ≡ files self.old }
        ensures answer { Reads (files self.old) name.now most result }
        ensures cause { HasFileCause (faults self.old) (faults self.new) result };

    /// Leaves exactly these bytes as the file of this name. A refusal changes that file at most, and
    /// is never `NoFile`.
    fn write(&mut self, name: &Text, bytes: &[u8]) -> Result<(), FilesRefused>
        ensures writes { Writes (files self.old) (files self.new) name.now bytes.now result }
        ensures cause { HasFileCause (faults self.old) (faults self.new) result }
        ensures no_missing { result ≢ Err FilesRefused.NoFile };
}
