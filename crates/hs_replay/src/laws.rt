//! Scripts written out: what they print, and their first bad line.
ghost use Rattle.std.specs.Prelude.{◌≡◌, ◌++◌, [], None, Some, codes};
ghost use Rattle.hs_schema.specs.declared.faults.SchemaRule.TheVariants.{BadKind};
ghost use Rattle.hs_replay.specs.declared.ends.Flaw.TheVariants.{NoEvent, BadTable};
ghost use Rattle.hs_replay.specs.Script.{script_text, bad_line_of, bad_line};
ghost use Rattle.hs_replay.specs.Examples.{before_a_turn, first_script, first_text};

/// No line prints nothing.
pub fn the_empty_script_prints_nothing()
    ensures text { script_text [] ≡ [] }
    ensures whole { bad_line_of [] ≡ None }
{}

/// An index is opened, a row is inserted and found. Before the turn nothing is printed.
pub fn a_row_is_inserted_and_found()
    ensures before { script_text before_a_turn ≡ [] }
    ensures text { script_text first_script ≡ first_text }
    ensures whole { bad_line_of first_script ≡ None }
{}

/// First bad lines, and what is bad about them.
pub fn example_flaws()
    ensures once { bad_line_of (codes "open\t1\tw\n") ≡ None }
    ensures twice { bad_line_of (codes "open\t1\tw\nopen\t01\tr\n") ≡ Some (bad_line 2 NoEvent) }
    ensures never { bad_line_of (codes "turn\tw\t9\n") ≡ Some (bad_line 1 NoEvent) }
    ensures cut { bad_line_of (codes "open\t1\tw") ≡ Some (bad_line 1 NoEvent) }
    ensures table { bad_line_of (codes "secret\tr\tk\ntable\n")
        ≡ Some (bad_line 2 (BadTable BadKind 1)) }
    // A line behind it isn't looked at.
    ensures first { bad_line_of (first_script ++ codes "\nx\n") ≡ Some (bad_line 5 NoEvent) }
{}
