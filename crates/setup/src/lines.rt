ghost use Rattle.std.specs.Prelude.{Some};
ghost use Rattle.setup.specs.Lines.{usage_of, unreadable_of};

use std::fmt;

/// The line of bad arguments, by the name of the program: `usage: console FILE [--shield FROM TO] [--ram AT WORDS]`.
#[derive(Clone, Copy)]
pub struct UsageLine<'a>(pub &'a str);

impl<'a> fmt::Display for UsageLine<'a> {
    ghost output = { λ l. Some (usage_of l.0.now) };

    fn fmt<W: fmt::Write>(&self, f: &mut fmt::Formatter<W>) -> fmt::Result {
        let program = self.0;
        writeln!(
            f,
            "usage: {program} FILE [--shield FROM TO] [--ram AT WORDS]"
        )
    }
}

/// The line of a file that cannot be read, by its path: `cannot read FILE`.
#[derive(Clone, Copy)]
pub struct UnreadableLine<'a>(pub &'a str);

impl<'a> fmt::Display for UnreadableLine<'a> {
    ghost output = { λ l. Some (unreadable_of l.0.now) };

    fn fmt<W: fmt::Write>(&self, f: &mut fmt::Formatter<W>) -> fmt::Result {
        let path = self.0;
        writeln!(f, "cannot read {path}")
    }
}
