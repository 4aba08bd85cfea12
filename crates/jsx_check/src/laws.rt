//! What holds of the faults of a file. This function does nothing: it has its law as its contract.

ghost use Rattle.std.specs.Prelude.{◌≡◌, ◌⊎◌};
ghost use Rattle.jsx_syntax.specs.Rules.{IsApp};
ghost use Rattle.jsx_syntax.specs.declared.file.File.{File};
ghost use Rattle.jsx_check.specs.Checks.{IsFaultOf};
ghost use Rattle.jsx_check.specs.declared.fault.CheckFault.{CheckFault};
ghost use Rattle.jsx_check.specs.declared.fault.CheckFault.TheVariants.{OutOfMemory as Memory};

/// A file has one fault at most, beside the want of memory, and one that meets the rules has none.
pub fn one_check_fault()
    ensures one { (file : File) (a b : CheckFault) → IsFaultOf file a → IsFaultOf file b →
        (a ≡ Memory) ⊎ (b ≡ Memory) ⊎ (a ≡ b) }
    ensures none { (file : File) (a : CheckFault) →
        IsApp file → IsFaultOf file a → a ≡ Memory }
{}
