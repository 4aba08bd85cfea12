//! Worked examples of the definitions.

ghost use Rattle.std.specs.Prelude.{◌≡◌, codes, [], None, false};
ghost use Rattle.dom_forest.specs.Forest.{empty};
ghost use Rattle.dom_forest.specs.declared.node.Mark.TheVariants.{Client, Complete, Pending};
ghost use Rattle.page_laws.specs.Pages.{client, complete, nothing, pending, placeholder, separator, text};
ghost use Rattle.like_laws.specs.Alike.{AreAlike};
ghost use Rattle.like_laws.specs.Apart.{StandApart};
ghost use Rattle.like_laws.specs.Examples.{comment, container_of, digest_paragraph, digest_template, paragraph, plain_template, text_before, space, template_of};
ghost use Rattle.like_laws.specs.PlainPages.{plain_page};

/// Separators between texts don't count, and join no texts. Directly after `$?` one counts before a template with an id, where
/// `$RC` would miss the marker, and after `$!` at the end, where such a template may follow; before a template without an id,
/// and after `$`, none counts. The digest of a template doesn't count, and that of another element does.
pub(crate) fn documents_that_are_alike()
    ensures texts { AreAlike (text_before (codes "a") (space (text_before (codes "b") empty)))
        (text_before (codes "a") (text_before (codes "b") empty)) }
    ensures joined { ¬ AreAlike (text_before (codes "a") (text_before (codes "b") empty))
        (text_before (codes "ab") empty) }
    ensures pending { ¬ AreAlike (comment Pending (space (template_of (codes "B:1") empty)))
        (comment Pending (template_of (codes "B:1") empty)) }
    ensures complete { AreAlike (comment Complete (space (template_of (codes "B:1") empty)))
        (comment Complete (template_of (codes "B:1") empty)) }
    ensures client { AreAlike (comment Client (space (plain_template empty)))
        (comment Client (digest_template empty)) }
    ensures at_end { ¬ AreAlike (comment Client (space empty)) (comment Client empty) }
    ensures other_digest { ¬ AreAlike paragraph digest_paragraph }
{}

/// A placeholder directly after `$?` stands not apart, and so does a container whose last child is `$?`: a separator in the
/// container would come after the marker in one of two alike documents. A boundary's own template may stand there.
pub(crate) fn what_stands_apart()
    ensures own { StandApart [] false (comment Pending (template_of (codes "B:1") empty)) }
    ensures placeholder { ¬ StandApart [] false
        (comment Pending (template_of (codes "P:1") empty)) }
    ensures after_end { StandApart [] false
        (comment Complete (template_of (codes "P:1") empty)) }
    ensures last { ¬ StandApart [] false (container_of (comment Pending empty) empty) }
    ensures in_it { StandApart [] false
        (container_of (comment Pending (text_before (codes "a") empty)) empty) }
{}

/// Separators go wherever they stand, and join no texts; a digest goes, and the ids of placeholders and boundaries stay.
pub(crate) fn pages_without_separators()
    ensures texts { plain_page (text (codes "a") (separator (text (codes "b") nothing)))
        ≡ text (codes "a") (text (codes "b") nothing) }
    ensures inside { plain_page (complete (separator (placeholder 1 nothing)) (separator nothing))
        ≡ complete (placeholder 1 nothing) nothing }
    ensures digest { plain_page (client None (codes "e") (pending 2 nothing nothing) nothing)
        ≡ client None [] (pending 2 nothing nothing) nothing }
{}
