ghost use Rattle.std.specs.Prelude.{◌≡◌, [], Ok, Err, replicate};
ghost use Rattle.benchfile.specs.Header.{header_of};
ghost use Rattle.benchfile.specs.Laws.{Begins, Decides, GetsTheVerdict, Holds, Judges, ReadsBack, WholeWords, mark};
ghost use Rattle.benchfile.specs.declared.refusals.Refusal.TheVariants.{Header, NotBenchFile, Version};

use benchfile::{enough_bytes, header};

/// A header gets the verdict on its own numbers, and they are read back; another limit is not.
#[tactic(auto, using(crate::proofs::Judging::other_verdict, crate::proofs::Judging::other_back))]
pub fn verdict() -> [u8; 24]
    ensures bytes { result ≡ header_of 0 0 0 10 }
    ensures verdict { GetsTheVerdict result 0 0 0 10 }
    ensures no_verdict { GetsTheVerdict result 0 0 0 11 → ⊥ }
    ensures back { ReadsBack result 0 0 10 }
    ensures not_back { ReadsBack result 0 0 11 → ⊥ }
{
    header(0, 0, 0, 10)
}

/// So many bytes decide, and those of a header alone do not.
#[tactic(auto, using(crate::proofs::Judging::header_undecided))]
pub fn decides() -> usize
    ensures value { result ≡ 32793 }
    ensures met { Decides result }
    ensures missed { Decides 24 → ⊥ }
{
    enough_bytes()
}

/// A file of no image is what its header says, and no other.
#[tactic(auto, using(crate::proofs::Judging::held))]
pub fn holds()
    ensures { Holds (header_of 0 0 0 10) (record { start = 0; base = 0; limit = 10; image = [] }) × (Holds (header_of 0 0 0 10) (record { start = 0; base = 0; limit = 11; image = [] }) → ⊥) }
{}

/// It has the mark, and neither no bytes nor zeros have.
#[tactic(auto, using(crate::proofs::Judging::begun))]
pub fn begins_with()
    ensures { Begins mark (header_of 0 0 0 10) × (Begins mark [] → ⊥) × (Begins mark (replicate 24 0) → ⊥) }
{}

/// It is accepted as that, and not refused; and no bytes are refused for the want of a mark.
#[tactic(auto, using(crate::proofs::Judging::accepted_as, crate::proofs::Judging::unmarked_for))]
pub fn judges()
    ensures accepted { Judges (header_of 0 0 0 10) (Ok (record { start = 0; base = 0; limit = 10; image = [] })) × (Judges (header_of 0 0 0 10) (Ok (record { start = 0; base = 0; limit = 11; image = [] })) → ⊥) × (Judges (header_of 0 0 0 10) (Err Header) → ⊥) }
    ensures refused { Judges [] (Err NotBenchFile) × (Judges [] (Err Version) → ⊥) }
{}

/// One word at address 4: not at 2, not of three bytes, and not two of them at the last address of a word.
#[tactic(auto, using(crate::proofs::Judging::whole))]
pub fn whole_words()
    ensures { WholeWords (Ok (record { start = 0; base = 4; limit = 10; image = replicate 4 0 })) × (WholeWords (Ok (record { start = 0; base = 2; limit = 10; image = replicate 4 0 })) → ⊥) × (WholeWords (Ok (record { start = 0; base = 4; limit = 10; image = replicate 3 0 })) → ⊥) × (WholeWords (Ok (record { start = 0; base = 0xFFFFFFFC; limit = 10; image = replicate 8 0 })) → ⊥) }
{}
