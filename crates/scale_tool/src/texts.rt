//! The texts of the program itself.

ghost use Rattle.std.specs.Prelude.{◌≡◌};
ghost use Rattle.scale_tool.specs.Answer.{bad_command_text, help_text};

/// What is printed for words that are no command.
pub fn bad_command() -> &'static str
    ensures { result.now ≡ bad_command_text }
{
    "bad command; try: scale help\n"
}

/// How the commands are called.
pub fn help() -> &'static str
    ensures { result.now ≡ help_text }
{
    "scale hold IMAGE MACHINE LOOPS OUT\nscale rewrite IMAGE MACHINE LOOPS OUT\nscale report IMAGE MACHINE LOOPS\nscale simulate IMAGE MACHINE INPUT OUT [LOOPS]\nscale make NUMBER SIZE PREFIX\nscale help\nscale check IMAGE FOREIGN MACHINE LOOPS\nscale lower IMAGE JUMPS OUT\nscale survey IMAGE SCALED MACHINE LOOPS INPUT ..\nscale tune IMAGE MACHINE LOOPS OUT INPUT ..\n"
}
