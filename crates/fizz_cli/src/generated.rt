//! The files of a generated page.

ghost use Rattle.std.specs.Prelude.{◌≡◌, ◌≤◌, IfOk, Some, codes, option_map};
ghost use Rattle.fizz_cli.specs.Generating.{app_name, generated_files, page_files, script_name};

use fizz_outside::{FileBytes, Files, FilesRefused};
use fizz_text::{OutOfMemory, Text};
use page_generator::{Generated, generate};
use std::alloc::Global;

const APP: &str = "generated.jsx";

const SCRIPT: &str = "generated.json";

/// The name of the component file.
pub(crate) fn app_name() -> Text
    ensures { result ≡ app_name }
{
    Text::fixed(APP)
}

/// The name of the settling script.
pub(crate) fn script_name() -> Text
    ensures { result ≡ script_name }
{
    Text::fixed(SCRIPT)
}

/// A component file and a settling script under their names. Nothing is written there.
#[derive(Drop)]
pub(crate) struct GeneratedFiles {
    alloc: Global,
    page: Generated,
}

/// The files of the page of a seed and a size.
pub(crate) fn files_of(alloc: Global, seed: u64, size: u32) -> Result<GeneratedFiles, OutOfMemory>
    requires some { 1 ≤ size }
    requires few { size ≤ 50000 }
    ensures { IfOk result (λ files.
        page_files files.page.app files.page.script.items ≡ generated_files seed size) }
{
    let page = generate(alloc, seed, size)?;
    Ok(GeneratedFiles { alloc, page })
}

impl GeneratedFiles {
    /// The bytes under a name.
    fn bytes_of(&self, name: &Text) -> Option<&[u8]>
        ensures { option_map (λ b. b.now) result
            ≡ page_files self.now.page.app self.now.page.script.items name.now }
    {
        if name.as_bytes() == APP.as_bytes() {
            return Some(self.page.app.as_bytes());
        }
        if name.as_bytes() == SCRIPT.as_bytes() {
            return Some(self.page.script.as_slice());
        }
        None
    }
}

impl Files for GeneratedFiles {
    ghost files = { λ f. Some (page_files f.page.app f.page.script.items) };

    ghost faults = { λ f. 0 };

    fn read(&mut self, name: &Text, most: usize) -> Result<FileBytes, FilesRefused> {
        match self.bytes_of(name) {
            None => Err(FilesRefused::NoFile),
            Some(bytes) if bytes.len() > most => Ok(FileBytes::TooLong),
            Some(bytes) => Ok(FileBytes::Whole(copy_of(self.alloc, bytes)?)),
        }
    }

    fn write(&mut self, _name: &Text, _bytes: &[u8]) -> Result<(), FilesRefused> {
        Err(FilesRefused::OutOfMemory)
    }
}

fn copy_of(alloc: Global, bytes: &[u8]) -> Result<Vec<u8>, OutOfMemory>
    ensures { IfOk result (λ copy. copy.items ≡ bytes.now) }
{
    Ok(Vec::from_slice(alloc, bytes)?)
}
