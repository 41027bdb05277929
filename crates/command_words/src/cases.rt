//! Worked cases of the command line, computed by the checker. Each is the contract of a function with an empty body.
#![allow(dead_code)]

ghost use Rattle.std.specs.Prelude.{◌≡◌, [], ◌∷◌, Some, None, codes};
ghost use Rattle.liszt_base.specs.Limits.{default_turns};
ghost use Rattle.command_words.specs.declared.command.Mode.TheVariants.{Check, Stencil, Seq};
ghost use Rattle.command_words.specs.Commands.{command_of};

/// Options are allowed anywhere, with the value as the next word or after `=`.
fn options()
    ensures none { command_of (codes "seq" ∷ codes "p" ∷ codes "n" ∷ codes "e" ∷ [])
        ≡ Some (record { mode = Seq default_turns; program = codes "p"; node = codes "n"; ele = codes "e" }) }
    ensures before { command_of (codes "--turns" ∷ codes "0005" ∷ codes "seq" ∷ codes "p"
        ∷ codes "n" ∷ codes "e" ∷ [])
        ≡ Some (record { mode = Seq 5; program = codes "p"; node = codes "n"; ele = codes "e" }) }
    ensures joined { command_of (codes "seq" ∷ codes "p" ∷ codes "--turns=7" ∷ codes "n" ∷ codes "e"
        ∷ []) ≡ Some (record { mode = Seq 7; program = codes "p"; node = codes "n"; ele = codes "e" }) }
    ensures check { command_of (codes "check" ∷ codes "p" ∷ codes "n" ∷ codes "e" ∷ [])
        ≡ Some (record { mode = Check; program = codes "p"; node = codes "n"; ele = codes "e" }) }
    ensures stencil { command_of (codes "stencil" ∷ codes "p" ∷ codes "n" ∷ codes "e" ∷ [])
        ≡ Some (record { mode = Stencil; program = codes "p"; node = codes "n"; ele = codes "e" }) }
{}

/// Words that are no command: an option without a value, a repeated option, an option of no command, a number out of range.
fn no_commands()
    ensures no_words { command_of [] ≡ None }
    ensures no_value { command_of (codes "seq" ∷ codes "p" ∷ codes "n" ∷ codes "e" ∷ codes "--turns"
        ∷ []) ≡ None }
    ensures twice { command_of (codes "seq" ∷ codes "--turns=1" ∷ codes "--turns=1" ∷ codes "p"
        ∷ codes "n" ∷ codes "e" ∷ []) ≡ None }
    ensures option_of_none { command_of (codes "seq" ∷ codes "p" ∷ codes "n" ∷ codes "e" ∷ codes "--workers"
        ∷ codes "4" ∷ []) ≡ None }
    ensures option_of_stencil { command_of (codes "stencil" ∷ codes "p" ∷ codes "n" ∷ codes "e" ∷ codes "--turns"
        ∷ codes "5" ∷ []) ≡ None }
    ensures option_of_check { command_of (codes "check" ∷ codes "p" ∷ codes "n" ∷ codes "e" ∷ codes "--turns"
        ∷ codes "5" ∷ []) ≡ None }
    ensures zero { command_of (codes "seq" ∷ codes "p" ∷ codes "n" ∷ codes "e" ∷ codes "--turns"
        ∷ codes "0" ∷ []) ≡ None }
{}
