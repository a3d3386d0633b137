ghost use Rattle.std.specs.Prelude.{ℕ, [], ◌∷◌, List, Ok, Err, codes};
ghost use Rattle.benchfile.specs.declared.refusals.Refusal.TheVariants.{NotBenchFile};
ghost use Rattle.playback.specs.Plays.{Plays, Prints};
ghost use Rattle.playback.specs.Transcript.{Transcript};
ghost use Rattle.session.specs.declared.call.Call.TheVariants as call;
ghost use Rattle.witnesses.specs.Benches.{one};
ghost use Rattle.witnesses.specs.Files.{file, no_bytes, plain};

/// Something is told of a step, and nothing would not be told of it.
#[tactic(auto, using(crate::proofs::Telling::step_told))]
pub fn transcript()
    ensures { ((text : List ℕ) × Transcript one one one no_bytes no_bytes (call.Step ∷ []) text) × (Transcript one one one no_bytes no_bytes (call.Step ∷ []) [] → ⊥) }
{}

/// So it is of the bench of a file, even without a call.
#[tactic(auto, using(crate::proofs::Telling::file_played))]
pub fn plays()
    ensures { ((text : List ℕ) × Plays plain file [] text) × (Plays plain file [] [] → ⊥) }
{}

/// For a refused file its line is printed, and for a script that is not played the line of its number.
#[tactic(auto, using(crate::proofs::Telling::file_refused, crate::proofs::Telling::line_blamed))]
pub fn prints()
    ensures refused { Prints plain (Err NotBenchFile) (Ok []) (codes "file 11\n") × (Prints plain (Err NotBenchFile) (Ok []) [] → ⊥) }
    ensures not_played { Prints plain (Ok file) (Err 7) (codes "line 7: what?\n") × (Prints plain (Ok file) (Err 8) (codes "line 7: what?\n") → ⊥) }
{}
