//! What runs keep, and what the first bytes of a run do.

ghost use Rattle.std.specs.Prelude.{◌≡◌, ◌≢◌, ◌++◌, ◌⊎◌, ℕ, Err, List, true};
ghost use Rattle.dom_forest.specs.Edits.{DomState, IsNumbered};
ghost use Rattle.fizz_instructions.specs.declared.instruction.Instruction.{Instruction};
ghost use Rattle.fizz_instructions.specs.declared.instruction.SentFunctions.{SentFunctions};
ghost use Rattle.html_read.specs.Faults.{IsBegun, begins_tag};
ghost use Rattle.document_machine.specs.Documents.{LeavesNoRest, Runs};
ghost use Rattle.document_machine.specs.Faults.{HasSomeFault};
ghost use Rattle.document_machine.specs.Knowing.{KnowsMore, RunsKnowing, RunsSomewhere};
ghost use Rattle.document_machine.specs.Running.{PageState, edit_of};
ghost use Rattle.document_machine.specs.declared.edits.EditFault.TheVariants.{OutOfMemory};

use fizz_instructions::laws_of_instructions;
use html_read::{laws_of_rests, laws_of_tokens};

/// Bytes run or have a fault; no edit wants memory, as edits are defined. Where bytes run, the first of them do. A run from a numbered document ends in one. Where more functions are known at the
/// start the same document is built. After a run that leaves no rest, a token that has begun and is no text changes nothing.
pub fn laws_of_runs()
    ensures decided { (prefix : List ℕ) (start : PageState) (bytes : List ℕ) →
        RunsSomewhere prefix start bytes ⊎ HasSomeFault prefix start bytes }
    ensures no_memory { (prefix opened : List ℕ) (i : Instruction) (dom : DomState) →
        edit_of prefix opened i dom ≢ Err OutOfMemory }
    ensures prefix { (prefix : List ℕ) (start end : PageState) (a b : List ℕ) →
        Runs prefix start (a ++ b) end → RunsSomewhere prefix start a }
    ensures numbered { (prefix : List ℕ) (start end : PageState) (bytes : List ℕ) →
        Runs prefix start bytes end → IsNumbered start.dom → IsNumbered end.dom }
    ensures more_known { (prefix : List ℕ) (start end : PageState) (bytes : List ℕ)
        (run : Runs prefix start bytes end)
        (known : SentFunctions) → KnowsMore start.known known →
        RunsKnowing prefix start bytes end run known }
    ensures begun { (prefix : List ℕ) (start middle : PageState) (a rest : List ℕ)
        (run : Runs prefix start a middle) →
        LeavesNoRest run → IsBegun rest → begins_tag rest ≡ true →
        Runs prefix start (a ++ rest) middle }
{
    laws_of_tokens();
    laws_of_rests();
    laws_of_instructions();
}
