//! Which commands read the source.

ghost use Rattle.std.specs.Prelude.{◌≡◌, Ok};
ghost use Rattle.run_rules.specs.Commands.{reads_source};

use command_words::Command;

/// Whether the command reads the source to its end.
pub fn reads_source(command: &Command) -> bool
    ensures { result ≡ reads_source (Ok command.now) }
{
    !matches!(command, Command::Family { .. } | Command::Trial { .. })
}
