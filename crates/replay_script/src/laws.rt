//! Lines of scripts, and what they say.
ghost use Rattle.std.specs.Prelude.{◌≡◌, ◌≤◌, ℕ, List, ◌++◌, ◌∷◌, [], None, Some, codes, length, IfSome};
ghost use Rattle.hs_token.specs.declared.tokens.Token.{Token};
ghost use Rattle.request_types.specs.declared.ports.Port.TheVariants.{Reading, Writing};
ghost use Rattle.hs_token.specs.Spelling.{line_spelled};
ghost use Rattle.replay_script.specs.declared.events.Event.{Event};
ghost use Rattle.replay_script.specs.declared.events.Event.TheVariants.{Table, LimitBytes, Secret, Open, Bytes, End, Room, Fault, Turn, Show};
ghost use Rattle.replay_script.specs.Events.{event_of};
ghost use Rattle.replay_script.specs.Spelling.{IsEvent, tokens_of};

/// What a line says is an event that a script may have, and each such event has a line that says it.
pub fn lines_say_the_events()
    ensures no_other { (line : List ℕ) → IfSome (event_of line) IsEvent }
    ensures each { (event : Event) → IsEvent event → length (line_spelled (tokens_of event)) ≤ 65536
        → event_of (line_spelled (tokens_of event)) ≡ Some event }
{}

/// One line of each kind.
pub fn example_events()
    ensures table { event_of (codes "table\tt") ≡ Some (Table (Token.Text (codes "table") ∷ Token.Text (codes "t") ∷ [])) }
    ensures limit { event_of (codes "limit\tbytes\t268435456") ≡ Some (LimitBytes 268435456) }
    ensures secret { event_of (codes "secret\tr\tkey") ≡ Some (Secret Reading (codes "key")) }
    ensures opened { event_of (codes "open\t1\tw") ≡ Some (Open 1 Writing) }
    // A piece of `P`, an LF and NULL's byte, as a text is spelled.
    ensures piece { event_of (codes "bytes\t1\tP" ++ 1 ∷ 74 ∷ 1 ∷ 64 ∷ []) ≡ Some (Bytes 1 (80 ∷ 10 ∷ 0 ∷ [])) }
    ensures ended { event_of (codes "end\t4294967295") ≡ Some (End 4294967295) }
    ensures room { event_of (codes "room\t7\t0") ≡ Some (Room 7 0) }
    ensures fault { event_of (codes "fault\t2") ≡ Some (Fault 2) }
    // Zeros may lead a number.
    ensures turn { event_of (codes "turn\tr\t02\t1") ≡ Some (Turn Reading (2 ∷ 1 ∷ [])) }
    ensures show { event_of (codes "show\t\tt") ≡ Some (Show [] (codes "t")) }
{}

/// Lines that say no event.
pub fn example_refusals()
    ensures empty_line { event_of [] ≡ None }
    ensures no_connection { event_of (codes "turn\tw") ≡ None }
    ensures one_twice { event_of (codes "turn\tw\t1\t2\t01") ≡ None }
    ensures no_limit { event_of (codes "limit\tbytes\t0") ≡ None }
    ensures null_for_a_key { event_of (codes "secret\tr\t" ++ 0 ∷ []) ≡ None }
    ensures extra_token { event_of (codes "end\t1\t1") ≡ None }
    ensures raw_carriage_return { event_of (codes "end\t1\r") ≡ None }
{}
