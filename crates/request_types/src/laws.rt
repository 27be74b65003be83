//! What holds of all refusals.
ghost use Rattle.std.specs.Prelude.{◌≡◌, ◌≢◌, []};
ghost use Rattle.request_types.specs.declared.codes.Code.{Code};
ghost use Rattle.request_types.specs.Code.{number, text};

/// Each refusal has a number and a text that no other one has, and neither is success's.
pub fn codes_are_distinct()
    ensures numbers { (a b : Code) → number a ≡ number b → a ≡ b }
    ensures texts { (a b : Code) → text a ≡ text b → a ≡ b }
    ensures none_is_success { (code : Code) → number code ≢ 0 }
    ensures none_is_empty { (code : Code) → text code ≢ [] }
{}
