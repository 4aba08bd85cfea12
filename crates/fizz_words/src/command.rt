ghost use Rattle.std.specs.Prelude.{◌≡◌, length};
ghost use Rattle.fizz_words.specs.Commands.{prefix_of, standard_options};

use fizz_text::Text;

/// What one call of fizz is to do.
#[derive(Debug, Drop)]
pub enum Command {
    /// Renders a component file under a settling script to the output. `workers` is 0 to 16; with 0 the page is
    /// rendered on the calling thread.
    Render {
        app: Text,
        script: Text,
        options: Options,
        workers: u32,
    },
    /// Shows the settled document of a page file, whose instructions name ids that begin with the prefix. It has at
    /// most 64 bytes.
    Show {
        file: Text,
        prefix: Text,
    },
    /// Prints the final document of a component file under a settling script: what the page shows once nothing settles
    /// any more. The prefix of the ids of a page that is rendered is kept free; it has at most 64 bytes.
    Tree {
        app: Text,
        script: Text,
        prefix: Text,
    },
    /// Renders the program that the generator makes of a seed and a size, 1 to 50,000, and prints one line on it.
    /// `workers` as in `Render`.
    Gen {
        seed: u64,
        size: u32,
        workers: u32,
    },
}

/// How a page is rendered.
#[derive(Debug, Drop)]
pub struct Options {
    /// What stands before each id of the renderer's own. At most 64 bytes.
    pub prefix: Text,
    /// A boundary of more bytes than these is sent by itself.
    pub progressive: u32,
    /// How many bytes go to the output at once. 1 to 1,048,576.
    pub chunk: u32,
}

impl Options {
    /// No prefix, 12,800 bytes of a boundary, and 2,048 bytes at once: what the words `render APP SCRIPT` alone mean.
    pub fn standard() -> Options
        ensures { result ≡ standard_options }
    {
        Options {
            prefix: Text::fixed(""),
            progressive: 12_800,
            chunk: 2_048,
        }
    }
}

impl Command {
    /// How many bytes its prefix has; none where it has no prefix.
    pub(crate) fn prefix_length(&self) -> usize
        ensures { result ≡ length (prefix_of self.now) }
    {
        match self {
            Command::Render { options, .. } => options.prefix.as_bytes().len(),
            Command::Show { prefix, .. } => prefix.as_bytes().len(),
            Command::Tree { prefix, .. } => prefix.as_bytes().len(),
            Command::Gen { .. } => 0,
        }
    }
}
