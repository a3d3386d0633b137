ghost use Rattle.std.specs.Prelude.{◌≡◌};
ghost use Rattle.setup.specs.Map.{range_from, bank_from, bank_length, mapped};

use super::options::{Options, WordRange};
use layers::{Joined, Placed, Shield};

/// A file's image at its base, under a shield, and joined with a bank.
pub type Map<L, R> = Joined<Shield<Placed<L>>, Placed<R>>;

/// The first word number that no memory has.
const NO_WORD: u32 = 1 << 30;

impl Options {
    // The shielded words: without the option none.
    fn shielded(self) -> WordRange
        ensures { result ≡ range_from self.shield }
    {
        self.shield.unwrap_or(WordRange { from: 0, to: 0 })
    }

    /// The number of the first word that the bank shows: without the option one that no memory has.
    pub fn bank_at(self) -> u32
        ensures { result ≡ bank_from self.ram }
    {
        self.ram.map_or(NO_WORD, |ram| ram.at)
    }

    /// How many words the bank has: without the option none.
    pub fn bank_words(self) -> u32
        ensures { result ≡ bank_length self.ram }
    {
        self.ram.map_or(0, |ram| ram.words)
    }

    /// The memory of an image and a bank: the image is placed at word number `base`, under the shield, and from the bank's first word on
    /// only the bank shows, placed there. Without `--shield` no word is shielded, and without `--ram` no bank shows.
    pub fn map<L, R>(self, base: u32, image: L, bank: R) -> Map<L, R>
        ensures { result ≡ mapped self base image bank }
    {
        let range = self.shielded();
        let at = self.bank_at();
        Joined {
            at,
            left: Shield {
                from: range.from,
                to: range.to,
                below: Placed { base, below: image },
            },
            right: Placed {
                base: at,
                below: bank,
            },
        }
    }
}
