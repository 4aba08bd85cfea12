//! What holds of runs of bytes, whatever machine there is.

ghost use Rattle.std.specs.Prelude.{◌≡◌, ℕ, ◌-◌, ◌++◌, Bool, true, false, List, [], Ok, length};
ghost use Rattle.std.specs.Str.{IsUtf8};
ghost use Rattle.document_machine.specs.Documents.{LeavesNoRest, Runs, RunsWhole, Steps, most_open};
ghost use Rattle.document_machine.specs.Faults.{EndsEarly, HasMachineFault};
ghost use Rattle.document_machine.specs.Printing.{MayPrint, page_bytes, with_forest};
ghost use Rattle.document_machine.specs.Running.{PageState, edit_of, ids_of};
ghost use Rattle.document_machine.specs.declared.fault.MachineFault.{MachineFault};
ghost use Rattle.dom_forest.specs.Edits.{IsNumbered, DomState};
ghost use Rattle.dom_forest.specs.Forest.{Forest};
ghost use Rattle.fizz_instructions.specs.Bodies.{IsInstruction, function_of, script_of};
ghost use Rattle.fizz_instructions.specs.Sending.{has, with_function};
ghost use Rattle.fizz_instructions.specs.declared.instruction.Instruction.{Instruction};
ghost use Rattle.html_read.specs.Faults.{Splits, begins_tag};
ghost use Rattle.html_read.specs.Tokens.{AreTokens, spellings};
ghost use Rattle.html_read.specs.declared.token.Token.{Token};

use fizz_instructions::laws_of_instructions;
use html_read::laws_of_tokens;

/// Bytes lead to one document at most. Tokens that can be followed are bytes that lead where the tokens lead. Bytes that
/// begin with `<` are run after others from what these lead to, and in no other way. Bytes whose tokens can be followed
/// have no fault, and none have two. They end early at one place at most, and nowhere where they are whole.
pub fn laws_of_documents()
    ensures one { (prefix : List ℕ) (start a b : PageState) (bytes : List ℕ) → IsUtf8 prefix →
        Runs prefix start bytes a → Runs prefix start bytes b → a ≡ b }
    ensures tokens { (prefix : List ℕ) (start end : PageState) (toks : List Token) →
        AreTokens toks → Steps prefix start toks end →
        (run : Runs prefix start (spellings toks) end) × LeavesNoRest run }
    ensures joined { (prefix : List ℕ) (start middle end : PageState) (a b : List ℕ)
        (run : Runs prefix start a middle) →
        LeavesNoRest run → begins_tag b ≡ true → (later : Runs prefix middle b end) →
        (whole : Runs prefix start (a ++ b) end) × (LeavesNoRest later → LeavesNoRest whole) }
    ensures parted { (prefix : List ℕ) (start middle end : PageState) (a b : List ℕ)
        (run : Runs prefix start a middle) →
        IsUtf8 prefix → LeavesNoRest run → begins_tag b ≡ true → Runs prefix start (a ++ b) end →
        Runs prefix middle b end }
    ensures rest { (prefix : List ℕ) (start end : PageState) (bytes : List ℕ)
        (run : Runs prefix start bytes end) →
        run.last ≡ [] → Runs prefix start (spellings run.toks) end }
    ensures followed { (prefix : List ℕ) (start end : PageState) (bytes : List ℕ)
        (toks : List Token) (rest : List ℕ) →
        IsUtf8 prefix → Splits bytes toks rest → Steps prefix start toks end →
        (fault : MachineFault) → HasMachineFault prefix start bytes fault → ⊥ }
    ensures sound { (prefix : List ℕ) (start end : PageState) (bytes : List ℕ) → IsUtf8 prefix →
        Runs prefix start bytes end → (fault : MachineFault) →
        HasMachineFault prefix start bytes fault → ⊥ }
    ensures one_fault { (prefix : List ℕ) (start : PageState) (bytes : List ℕ)
        (f g : MachineFault) →
        IsUtf8 prefix → HasMachineFault prefix start bytes f →
        HasMachineFault prefix start bytes g → f ≡ g }
    ensures one_end { (prefix : List ℕ) (start : PageState) (bytes : List ℕ) (a b : ℕ) →
        EndsEarly prefix start bytes a → EndsEarly prefix start bytes b → a ≡ b }
    ensures whole { (prefix : List ℕ) (start end : PageState) (bytes : List ℕ) (at : ℕ) →
        IsUtf8 prefix → RunsWhole prefix start bytes end → EndsEarly prefix start bytes at → ⊥ }
{
    laws_of_tokens();
    laws_of_instructions();
}

/// What is printed leads to the document with it at its end, and what a script says is done.
pub fn laws_of_printing()
    ensures prints { (prefix : List ℕ) (start : PageState) (forest : Forest) →
        IsNumbered start.dom → MayPrint forest false (most_open - length start.opened) →
        (run : Runs prefix start (page_bytes forest) (with_forest forest start)) × LeavesNoRest run }
    ensures says { (prefix : List ℕ) (start : PageState) (i : Instruction) (defines : Bool)
        (dom : DomState) →
        IsInstruction i → (defines ≡ false → has start.known (function_of i) ≡ true) →
        edit_of prefix (ids_of start.opened) i start.dom ≡ Ok dom →
        (run : Runs prefix start (script_of prefix i defines) (record start { dom = dom; known = with_function start.known (function_of i) })) × LeavesNoRest run }
{
    laws_of_tokens();
    laws_of_instructions();
}
