//! The texts of the refusals.
ghost use Rattle.std.specs.Prelude.{◌≡◌};
ghost use Rattle.request_types.specs.Code.{text_of};

/// The text that stands beside a code, which is empty for a number that is no refusal's.
pub fn text_of(code: u32) -> &'static str
    ensures { result.now ≡ text_of code }
{
    match code {
        1 => "cmd",
        2 => "args",
        3 => "unauth",
        4 => "token",
        5 => "noindex",
        6 => "table",
        7 => "index",
        8 => "column",
        9 => "readonly",
        10 => "op",
        11 => "vlen",
        12 => "in",
        13 => "filter",
        14 => "mod",
        15 => "value",
        16 => "dup",
        17 => "null",
        18 => "range",
        19 => "full",
        20 => "big",
        21 => "ids",
        22 => "authkey",
        30 => "syntax",
        31 => "name",
        32 => "type",
        _ => "",
    }
}
