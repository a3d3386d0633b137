ghost use Rattle.std.specs.Prelude.{◌≡◌, map};
ghost use Rattle.commands.specs.Table.{Finds};
ghost use Rattle.setup.specs.Options.{setting_of, alone, together, options_with, options_of, arguments_of, Names};
ghost use Rattle.setup.specs.Views.{arguments_view};

use commands::number;

/// The words from number `from` up to number `to`, without the last.
#[derive(Clone, Copy, PartialEq, Eq, Debug)]
pub struct WordRange {
    pub from: u32,
    pub to: u32,
}

/// Words that are zero at first and show from word number `at` on.
#[derive(Clone, Copy, PartialEq, Eq, Debug)]
pub struct Ram {
    pub at: u32,
    /// How many words, at most 65,536.
    pub words: u32,
}

/// What the options say of the memory.
#[derive(Clone, Copy, PartialEq, Eq, Debug)]
pub struct Options {
    /// The words of the image that cannot be written.
    pub shield: Option<WordRange>,
    /// The words that hide the image's from the first of them on.
    pub ram: Option<Ram>,
}

/// The most words that a bank has.
const MOST_WORDS: u32 = 65_536;

/// What one option says.
#[derive(Clone, Copy)]
enum Setting {
    Shield(WordRange),
    Ram(Ram),
}

// `--shield FROM TO` or `--ram AT WORDS`.
fn read_setting(name: &str, first: &str, second: &str) -> Option<Setting>
    ensures { result ≡ setting_of name.now first.now second.now }
{
    let first = number(first.as_bytes())?;
    let second = number(second.as_bytes())?;
    if name == "--shield" {
        Some(Setting::Shield(WordRange {
            from: first,
            to: second,
        }))
    } else if name == "--ram" && second <= MOST_WORDS {
        Some(Setting::Ram(Ram {
            at: first,
            words: second,
        }))
    } else {
        None
    }
}

// What one option says alone.
fn alone(setting: Setting) -> Options
    ensures { result ≡ alone setting }
{
    match setting {
        Setting::Shield(shield) => Options {
            shield: Some(shield),
            ram: None,
        },
        Setting::Ram(ram) => Options {
            shield: None,
            ram: Some(ram),
        },
    }
}

// What two options say, one of each kind.
fn together(one: Setting, other: Setting) -> Option<Options>
    ensures { result ≡ together one other }
{
    match (one, other) {
        (Setting::Shield(shield), Setting::Ram(ram))
        | (Setting::Ram(ram), Setting::Shield(shield)) => Some(Options {
            shield: Some(shield),
            ram: Some(ram),
        }),
        _ => None,
    }
}

// What an option says, and the arguments after it.
fn followed(one: Setting, others: &[&str]) -> Option<Options>
    ensures { result ≡ options_with one (map (λ a. a.now) others.now) }
{
    match others {
        [] => Some(alone(one)),
        [name, first, second] => together(one, read_setting(name, first, second)?),
        _ => None,
    }
}

// What arguments say as options.
fn read_options(arguments: &[&str]) -> Option<Options>
    ensures { result ≡ options_of (map (λ a. a.now) arguments.now) }
{
    match arguments {
        [] => Some(Options {
            shield: None,
            ram: None,
        }),
        [name, first, second, others @ ..] => followed(read_setting(name, first, second)?, others),
        _ => None,
    }
}

/// What a program that drives a bench is told: the path of the bench file, and the options.
#[derive(Clone, Copy, PartialEq, Eq, Debug)]
pub struct Arguments<'a> {
    pub file: &'a str,
    pub options: Options,
}

// A file and options. A function of its own: in one with `read_arguments` a mistake would be refused by a search for the law, and not by
// the value.
fn read_all<'a>(arguments: &[&'a str]) -> Option<Arguments<'a>>
    ensures { arguments_view result ≡ arguments_of (map (λ a. a.now) arguments.now) }
{
    let [file, options @ ..] = arguments else {
        return None;
    };
    let options = read_options(options)?;
    Some(Arguments { file, options })
}

/// What the arguments after the program's name say: `FILE [--shield FROM TO] [--ram AT WORDS]`, the options in either order, each at most
/// once. None if they say anything else, or ask for more than 65,536 words.
#[tactic(auto, using(crate::proofs::Asking::arguments_found))]
pub fn read_arguments<'a>(arguments: &[&'a str]) -> Option<Arguments<'a>>
    ensures value { arguments_view result ≡ arguments_of (map (λ a. a.now) arguments.now) }
    ensures law { Finds (Names (map (λ a. a.now) arguments.now)) (arguments_view result) }
{
    read_all(arguments)
}
