//! What a page is made of, and the layers of its positions.

use crate::shape::Shape;
use crate::spot::Kin;
use fizz_text::Text;
use jsx_syntax::Component;
use settle_script::Outcomes;

/// What a page is made of: the components in the order of the file, the settlements of which the first `settled` are
/// known, and the prefix of its ids.
#[derive(Clone, Copy)]
pub(crate) struct Page<'a> {
    pub(crate) components: &'a [Component],
    pub(crate) outcomes: &'a Outcomes,
    pub(crate) settled: u32,
    pub(crate) prefix: &'a Text,
}

/// A position that was opened: how many calls were opened on the way, and its shape.
#[derive(Drop)]
pub(crate) struct Layer<'a> {
    pub(crate) calls: u64,
    pub(crate) shape: Shape<Kin<'a>>,
}
