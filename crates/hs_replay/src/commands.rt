//! The words of the command line.
ghost use Rattle.std.specs.Prelude.{◌≡◌, ◌≢◌, ◌∷◌, ◌↔◌, [], true, MatchOption, map, string_bytes, codes};
ghost use Rattle.hs_replay.specs.Ends.{IsCommand};

/// The journal that a command names. A command is `replay` and a journal, whose name isn't empty.
pub fn path_of(words: &[String]) -> Option<&String>
    ensures command { MatchOption result (¬ IsCommand (map (λ w. string_bytes w) words.now)) (λ path. IsCommand (map (λ w. string_bytes w) words.now)) }
    ensures journal { MatchOption result (Unit {0}) (λ path. map (λ w. string_bytes w) words.now ≡ codes "replay" ∷ string_bytes path.now ∷ []) }
{
    match words {
        [word, path] if word.as_str() == "replay" && !path.as_str().is_empty() => Some(path),
        _ => None,
    }
}

/// Whether the words ask for the page of help, and for nothing else.
pub fn asks_help(words: &[String]) -> bool
    ensures asked { (result ≡ true) ↔ (map (λ w. string_bytes w) words.now ≡ codes "--help" ∷ []) }

    // No command asks for it.
    ensures told { result ≡ true → ¬ IsCommand (map (λ w. string_bytes w) words.now) }
{
    match words {
        [word] => word.as_str() == "--help",
        _ => false,
    }
}
