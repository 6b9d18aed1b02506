//! What follows from the meaning of the commands.

ghost use Rattle.std.specs.Prelude.{◌≡◌, ℕ, List, true, None};
ghost use Rattle.std.specs.List.{list_any};
ghost use Rattle.command_line.specs.Commands.{command_of, begins_with_dash};

/// Where some word begins with a dash, as `--help` does, the words are no command.
pub fn dashes_are_no_command()
    ensures { (words : List (List ℕ)) → list_any begins_with_dash words ≡ true → command_of words ≡ None }
{}
