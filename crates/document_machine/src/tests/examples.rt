//! Worked examples of the definitions that no code computes.

ghost use Rattle.std.specs.Prelude.{◌≡◌, ◌∷◌, [], None, Some, codes, false, true};
ghost use Rattle.dom_forest.specs.Forest.{empty, tree};
ghost use Rattle.dom_forest.specs.declared.node.NewNode.TheVariants.{Text};
ghost use Rattle.html_read.specs.declared.token.Token.TheVariants.{Start, Void};
ghost use Rattle.document_machine.specs.Examples.{container_inside, paragraph_and_end, placeholder, script_inside, shell_and_container};
ghost use Rattle.document_machine.specs.Faults.{HasSomeFault};
ghost use Rattle.document_machine.specs.Knowing.{RunsSomewhere};
ghost use Rattle.document_machine.specs.Places.{first_late, still_open};
ghost use Rattle.document_machine.specs.Running.{at_first};
ghost use Rattle.document_machine.specs.Reveals.{has_placeholder_before};

/// A shell ends where the first hidden container at the top begins, or the first script; a container inside an element
/// or of another prefix doesn't count.
pub(crate) fn where_shells_end()
    ensures at_container { first_late [] 0 shell_and_container ≡ Some 8 }
    ensures inside { first_late [] 0 container_inside ≡ None }
    ensures other_prefix { first_late (codes "r-") 0 shell_and_container ≡ None }
    ensures at_script { first_late [] 0 script_inside ≡ Some 3 }
{}

/// What elements are open after tokens.
pub(crate) fn what_is_open()
    ensures one { still_open 0 shell_and_container ≡ 1 }
    ensures closed { still_open 0 container_inside ≡ 0 }
    ensures void { still_open 0 (Start (codes "p") [] 0 ∷ Void (codes "br") [] 3 ∷ []) ≡ 1 }
{}

/// Content between `$` and `/$` has a part to come where a placeholder of the page stands in it, also inside an element.
pub(crate) fn what_is_to_come()
    ensures beside { has_placeholder_before [] 9 (placeholder 2 (paragraph_and_end empty)) ≡ true }
    ensures below { has_placeholder_before [] 9 (paragraph_and_end (placeholder 2 empty)) ≡ true }
    ensures other_prefix { has_placeholder_before (codes "r-") 9
        (paragraph_and_end (placeholder 2 empty)) ≡ false }
    ensures past_the_end { has_placeholder_before [] 1 (paragraph_and_end (placeholder 2 empty))
        ≡ false }
    ensures whole { has_placeholder_before [] 9
        (paragraph_and_end (tree 2 (Text (codes "a")) empty empty)) ≡ false }
{}

/// A tag that has only begun is no fault of the bytes, though they are no whole page. An end tag that
/// closes nothing is one.
pub(crate) fn what_runs()
    ensures begun { RunsSomewhere [] at_first (codes "<p") }
    ensures fault { HasSomeFault [] at_first (codes "</p>") }
{}
