//! The end of a page's shell, and its rest places.

ghost use Rattle.std.specs.Prelude.{◌≡◌, ◌≤◌, ◌+◌, ◌++◌, ◌⊎◌, ℕ, Bool, List, None, false, length, true};
ghost use Rattle.fizz_text.specs.declared.attribute.Attr.{Attr};
ghost use Rattle.dom_forest.specs.Forest.{Forest, empty, tree};
ghost use Rattle.dom_forest.specs.declared.node.NewNode.TheVariants.{Element};
ghost use Rattle.fizz_instructions.specs.Bodies.{script_of};
ghost use Rattle.fizz_instructions.specs.declared.instruction.Instruction.{Instruction};
ghost use Rattle.html_read.specs.Faults.{HasSplit, begins_tag};
ghost use Rattle.html_read.specs.Tokens.{IsToken, Tokenizes, spelling};
ghost use Rattle.html_read.specs.declared.token.Token.{Token};
ghost use Rattle.document_machine.specs.Places.{IsClosedAt, IsRestPlace, IsShellEnd, first_late, still_open};
ghost use Rattle.document_machine.specs.Printing.{MayPrint, page_bytes};
ghost use Rattle.page_laws.specs.PagePlaces.{HasLateAt, IsClosed, IsOneItem, is_late};

use fizz_instructions::laws_of_instructions;
use html_read::laws_of_tokens;

/// A shell has one end. Where late content has begun, later bytes don't move the end; late content directly after bytes that
/// close what they open, and hold none, begins at their end.
pub fn laws_of_shells()
    ensures one { (prefix bytes : List ℕ) (m n : ℕ) → IsShellEnd prefix bytes m →
        IsShellEnd prefix bytes n → m ≡ n }
    ensures stays { (prefix a b : List ℕ) (at : ℕ) → HasLateAt prefix a at → HasSplit (a ++ b) →
        IsShellEnd prefix (a ++ b) at }
    ensures begins { (prefix a b more : List ℕ) (toks : List Token) (late : Token) →
        Tokenizes a toks →
        still_open 0 toks ≡ 0 → first_late prefix 0 toks ≡ None → IsToken late →
        is_late prefix late ≡ true →
        b ≡ spelling late ++ more → HasSplit (a ++ b) → IsShellEnd prefix (a ++ b) (length a) }
{
    laws_of_tokens();
}

/// The places of bytes at which their tokens are whole and close what they open, of bytes after others: within the first
/// they are theirs, and past the first, which close what they open, those of the others. A rest place of a page in which late
/// content has begun stays one whatever follows.
pub fn laws_of_rest_places()
    ensures within { (a b : List ℕ) (m : ℕ) → m ≤ length a → IsClosedAt (a ++ b) m →
        IsClosedAt a m }
    ensures first { (a b : List ℕ) (m : ℕ) → IsClosedAt a m → IsClosedAt (a ++ b) m }
    ensures after { (a b : List ℕ) (k : ℕ) → IsClosed a → begins_tag b ≡ true →
        IsClosedAt (a ++ b) (length a + k) → IsClosedAt b k }
    ensures further { (a b : List ℕ) (k : ℕ) → IsClosed a → begins_tag b ≡ true → IsClosedAt b k →
        IsClosedAt (a ++ b) (length a + k) }
    ensures stays { (prefix a b : List ℕ) (shell m : ℕ) → HasLateAt prefix a shell →
        HasSplit (a ++ b) →
        IsRestPlace prefix a m → IsRestPlace prefix (a ++ b) m }
{
    laws_of_tokens();
}

/// Within one item, which is an element with all that stands in it or a script, no place is one of rest but its two ends; of
/// one item after another, as of a container and its script, the place between them is one too. A printed element is one
/// item, and so is an instruction's script.
pub fn laws_of_items()
    ensures places { (bytes : List ℕ) (m : ℕ) → IsOneItem bytes → IsClosedAt bytes m →
        (m ≡ 0) ⊎ (m ≡ length bytes) }
    ensures two { (a b : List ℕ) (m : ℕ) → IsOneItem a → IsOneItem b → IsClosedAt (a ++ b) m →
        (m ≡ 0) ⊎ ((m ≡ length a) ⊎ (m ≡ length a + length b)) }
    ensures closed { (bytes : List ℕ) → IsOneItem bytes → IsClosed bytes }
    ensures element { (i : ℕ) (name : List ℕ) (attributes : List Attr) (kids : Forest) (room : ℕ) →
        MayPrint (tree i (Element name attributes) kids empty) false room →
        IsOneItem (page_bytes (tree i (Element name attributes) kids empty)) }
    ensures script { (prefix : List ℕ) (i : Instruction) (defines : Bool) →
        IsOneItem (script_of prefix i defines) }
{
    laws_of_tokens();
    laws_of_instructions();
}
