use fizz_text::Text;

/// A name with the place of its token, a byte offset in the text that was read.
#[derive(Debug, Drop)]
pub struct Name {
    pub text: Text,
    pub at: usize,
}

/// What stands under a name.
#[derive(Debug, Drop)]
pub struct Entry<T> {
    pub name: Name,
    pub value: T,
}
