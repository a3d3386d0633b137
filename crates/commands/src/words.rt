ghost use Rattle.std.specs.Prelude.{◌≡◌};
ghost use Rattle.std.specs.List.{find};
ghost use Rattle.std.specs.Str.{bytes_eq};
ghost use Rattle.commands.specs.Words.{name_of, word_of, looks_by_name, commands_by_word};

use super::command::Command;
use bench::Look;
use session::Call;

/// What is looked at by its name alone.
const BY_NAME: [Look; 10] = [
    Look::Pc,
    Look::Tr,
    Look::Ir,
    Look::Dr,
    Look::Ar,
    Look::Flg,
    Look::Phase,
    Look::Clocks,
    Look::Retired,
    Look::Journal,
];

/// The commands that are one word.
const BY_WORD: [Command; 5] = [
    Command::Call(Call::Tick),
    Command::Call(Call::Step),
    Command::Call(Call::Back),
    Command::Show,
    Command::Quit,
];

/// The name of what is looked at: of a register what stands before its number, of a byte what stands before its address.
pub(super) fn name(look: Look) -> &'static str
    ensures { result.now ≡ name_of look }
{
    match look {
        Look::Register(_) => "x",
        Look::Byte(_) => "byte",
        Look::Pc => "pc",
        Look::Tr => "tr",
        Look::Ir => "ir",
        Look::Dr => "dr",
        Look::Ar => "ar",
        Look::Flg => "flg",
        Look::Phase => "phase",
        Look::Clocks => "clocks",
        Look::Retired => "retired",
        Look::Journal => "journal",
    }
}

/// The first word of a command.
pub(super) fn word(command: Command) -> &'static str
    ensures { result.now ≡ word_of command }
{
    match command {
        Command::Call(Call::Tick) => "tick",
        Command::Call(Call::Step) => "step",
        Command::Call(Call::Run(_)) => "run",
        Command::Call(Call::Back) => "back",
        Command::Call(Call::Look(_)) => "look",
        Command::Show => "show",
        Command::Quit => "quit",
    }
}

/// What is looked at by this name alone.
pub(super) fn look_by_name(text: &[u8]) -> Option<Look>
    ensures { result ≡ find (λ l. bytes_eq (name_of l) text.now) looks_by_name }
{
    BY_NAME
        .iter()
        .copied()
        .find(|look| name(*look).as_bytes() == text)
}

/// The command that is this word alone.
pub(super) fn command_by_word(text: &[u8]) -> Option<Command>
    ensures { result ≡ find (λ c. bytes_eq (word_of c) text.now) commands_by_word }
{
    BY_WORD
        .iter()
        .copied()
        .find(|command| word(*command).as_bytes() == text)
}
