ghost use Rattle.std.specs.Prelude.{◌≡◌};
ghost use Rattle.stack.specs.Stack.{stacked};

use layers::{Joined, Placed, Shield};

/// The settings of a stack: the left store is placed at `base`, the right one has a shield from `from` to `to`, and the two are
/// joined at `at`.
#[derive(Clone, Copy, PartialEq, Eq, Debug)]
pub struct Settings {
    pub base: u32,
    pub from: u32,
    pub to: u32,
    pub at: u32,
}

impl Settings {
    /// The two stores under one stack.
    pub fn stack<L, R>(self, left: L, right: R) -> Joined<Placed<L>, Shield<R>>
        ensures { result ≡ stacked self left right }
    {
        Joined {
            at: self.at,
            left: Placed {
                base: self.base,
                below: left,
            },
            right: Shield {
                from: self.from,
                to: self.to,
                below: right,
            },
        }
    }
}
