/// A rule about the names of a file, in the order in which they are told at one place.
#[derive(Clone, Copy, Debug, PartialEq, Eq, Drop)]
pub enum Rule {
    /// A name in an expression is no property, no earlier constant and no map variable of its place.
    UnknownName,
    /// An element's name isn't HTML's, or a component's is none of the file's.
    UnknownElement,
    /// An attribute isn't known of its element, or is no property of its component.
    UnknownAttribute,
    /// A component, property, constant, map variable or attribute has a name that is taken.
    TwiceDefined,
    /// A component's element stands in no later component.
    UsedBeforeDefined,
    /// A component's element or `Suspense` stands in a fallback.
    FallbackNotPlain,
}
