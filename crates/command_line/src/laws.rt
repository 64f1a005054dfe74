//! The grammar at words that are written out, each the contract of a function that does nothing.

ghost use Rattle.std.specs.Prelude.{◌≡◌, ◌∷◌, [], codes};
ghost use Rattle.osv_prim.specs.declared.subject.Subject.TheVariants.{Package};
ghost use Rattle.settings.specs.Ranges.{default_settings};
ghost use Rattle.settings.specs.declared.TheConstants.{MAX_INPUT_BYTES};
ghost use Rattle.command_line.specs.Commands.{command};
ghost use Rattle.command_line.specs.declared.command.Command.TheVariants.{Ask, Check, Replay, Serve, Drill};

/// Options stand before, between and behind the operands, in both spellings.
pub fn words_that_are_commands()
    ensures plain { command (codes "ask" ∷ codes "npm" ∷ codes "p" ∷ codes "1.0" ∷ [])
        ≡ Some (Ask (Package (record { ecosystem = codes "npm"; name = codes "p" }) (Some (codes "1.0"))) MAX_INPUT_BYTES) }
    ensures behind_two_dashes { command (codes "ask" ∷ codes "--input=200" ∷ codes "npm" ∷ codes "p" ∷ codes "--" ∷ codes "-1" ∷ [])
        ≡ Some (Ask (Package (record { ecosystem = codes "npm"; name = codes "p" }) (Some (codes "-1"))) 200) }
    ensures in_two_words { command (codes "check" ∷ codes "--input" ∷ codes "7" ∷ []) ≡ Some (Check 7) }
    ensures no_options { command (codes "replay" ∷ []) ≡ Some (Replay default_settings) }
    ensures a_drill { command (codes "drill" ∷ codes "18446744073709551615" ∷ codes "0004" ∷ []) ≡ Some (Drill 18446744073709551615 4) }
    ensures all_options { command (codes "replay" ∷ codes "--requests=2" ∷ codes "--body" ∷ codes "1" ∷ codes "--stream=4" ∷ codes "--weight=64" ∷ codes "--page" ∷ codes "2" ∷ codes "--keep=1" ∷ codes "--commits" ∷ codes "3" ∷ [])
        ≡ Some (Replay (record { weight = 64; body = 1; stream = 4; requests = 2; keep = 1; page = 2; commits = 3 })) }
    ensures an_address { command (codes "serve" ∷ codes "a:1" ∷ []) ≡ Some (Serve (record default_settings { requests = 1000 }) 4 2 (codes "a:1")) }
    ensures lanes_and_helpers { command (codes "serve" ∷ codes "--requests=2" ∷ codes "a:1" ∷ codes "--helpers" ∷ codes "0" ∷ codes "--lanes=64" ∷ [])
        ≡ Some (Serve (record default_settings { requests = 2 }) 64 0 (codes "a:1")) }
{}

/// An option stands once, with a value in its range, at a command that takes it.
pub fn words_that_are_none()
    ensures twice { command (codes "ask" ∷ codes "--input" ∷ codes "5" ∷ codes "--input" ∷ codes "5" ∷ codes "npm" ∷ codes "p" ∷ []) ≡ None }
    ensures without_value { command (codes "check" ∷ codes "--input" ∷ []) ≡ None }
    ensures below_its_range { command (codes "replay" ∷ codes "--body" ∷ codes "0" ∷ []) ≡ None }
    ensures above_the_stream { command (codes "serve" ∷ codes "--stream" ∷ codes "8589934593" ∷ codes "a:1" ∷ []) ≡ None }
    ensures below_its_least { command (codes "replay" ∷ codes "--weight" ∷ codes "63" ∷ []) ≡ None }
    ensures above_its_range { command (codes "replay" ∷ codes "--requests=1000001" ∷ []) ≡ None }
    ensures of_another_command { command (codes "replay" ∷ codes "--input=5" ∷ []) ≡ None }
    ensures an_operand { command (codes "check" ∷ codes "npm" ∷ []) ≡ None }
    ensures a_greater_drill { command (codes "drill" ∷ codes "1" ∷ codes "2001" ∷ []) ≡ None }
    ensures no_size { command (codes "drill" ∷ codes "1" ∷ []) ≡ None }
    ensures no_operands { command (codes "ask" ∷ []) ≡ None }
    ensures no_lane { command (codes "serve" ∷ codes "--lanes=0" ∷ codes "a:1" ∷ []) ≡ None }
    ensures too_many_helpers { command (codes "serve" ∷ codes "--helpers=65" ∷ codes "a:1" ∷ []) ≡ None }
    ensures an_empty_address { command (codes "serve" ∷ [] ∷ []) ≡ None }
    ensures two_addresses { command (codes "serve" ∷ codes "a:1" ∷ codes "a:2" ∷ []) ≡ None }
{}
