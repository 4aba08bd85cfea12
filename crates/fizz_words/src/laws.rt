ghost use Rattle.std.specs.Prelude.{◌≡◌, ℕ, List, [], true, false};
ghost use Rattle.fizz_words.specs.Commands.{IsTaken};
ghost use Rattle.fizz_words.specs.Meaning.{asks, command_of, errs, faults_of};

/// Words in which clap finds no fault mean a command, whose numbers are in their ranges. No words both ask for a text
/// and are wrong.
pub fn laws_of_words()
    ensures taken { (words : List (List ℕ)) → faults_of words ≡ [] → IsTaken (command_of words) }
    ensures apart { (words : List (List ℕ)) → asks words ≡ true → errs words ≡ false }
{}
