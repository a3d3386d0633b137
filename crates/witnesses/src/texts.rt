ghost use Rattle.std.specs.Prelude.{false, [], ◌∷◌, Some, Ok, Err, codes};
ghost use Rattle.bench.specs.Calls.{stepped_state};
ghost use Rattle.benchfile.specs.declared.refusals.Refusal.TheVariants.{NotBenchFile};
ghost use Rattle.conversation.specs.Conversations.{Partly, StaysLawful, Turn};
ghost use Rattle.conversation.specs.Files.{LeftOver, SentOver};
ghost use Rattle.conversation.specs.Replies.{LineKept};
ghost use Rattle.report.specs.Lines.{summary_of};
ghost use Rattle.report.specs.Listing.{Adds, Listed, Lists};
ghost use Rattle.script.specs.Script.{FaultOf};
ghost use Rattle.script.specs.declared.fault.ScriptFault.TheVariants.{NoCommand};
ghost use Rattle.session.specs.Lawful.{fresh_of};
ghost use Rattle.tracer.specs.Steps.{PcFits};
ghost use Rattle.witnesses.specs.Benches.{empty, one};
ghost use Rattle.witnesses.specs.Files.{at_two_to_32, file, line, plain};
ghost use Rattle.witnesses.specs.Machines.{word};
ghost use Rattle.word_listing.specs.Output.{Answers};

/// A line that says a step moves the count by one, and a line that says a look does not.
#[tactic(auto, using(crate::proofs::Talking::step_line))]
pub fn line_kept()
    ensures { LineKept (codes "step") (fresh_of one) (stepped_state (fresh_of one)) × (LineKept (codes "look pc") (fresh_of one) (stepped_state (fresh_of one)) → ⊥) }
{}

/// After a step the law stands, and it does not over another memory.
#[tactic(auto, using(crate::proofs::Talking::stays))]
pub fn stays_lawful()
    ensures { StaysLawful (fresh_of one) (stepped_state (fresh_of one)) × (StaysLawful (fresh_of empty) (fresh_of one) → ⊥) }
{}

/// With nothing left to read a conversation ends where it is.
#[tactic(auto, using(crate::proofs::Talking::ended))]
pub fn turn()
    ensures { Turn false (fresh_of one) (fresh_of one) [] (Some []) (Some []) (Some []) × (Turn false (fresh_of one) (stepped_state (fresh_of one)) [] (Some []) (Some []) (Some []) → ⊥) × (Turn false (fresh_of one) (fresh_of one) [] (Some []) (Some []) (Some (codes "a")) → ⊥) }
{}

/// After a line that says a step the bench has made it, and after no line it has not.
#[tactic(auto, using(crate::proofs::Talking::partly))]
pub fn partly()
    ensures { Partly (fresh_of one) (codes "step" ∷ []) (stepped_state (fresh_of one)) × (Partly (fresh_of one) [] (stepped_state (fresh_of one)) → ⊥) }
{}

/// A conversation over no bytes leaves none, and for a refused file all are left.
#[tactic(auto, using(crate::proofs::Talking::left_over, crate::proofs::Talking::left_unread))]
pub fn left_over()
    ensures file { LeftOver (Ok file) plain (Some []) (Some []) × (LeftOver (Ok file) plain (Some []) (Some (codes "a")) → ⊥) }
    ensures refused { LeftOver (Err NotBenchFile) plain (Some (codes "a")) (Some (codes "a")) × (LeftOver (Err NotBenchFile) plain (Some (codes "a")) (Some []) → ⊥) }
{}

/// Over a file with no script nothing is sent, and for a refused file its line is.
#[tactic(auto, using(crate::proofs::Talking::over_file, crate::proofs::Talking::over_none))]
pub fn sent_over()
    ensures file { SentOver (Ok file) plain (Some []) (Some []) (Some []) × (SentOver (Ok file) plain (Some []) (Some []) (Some (codes "a")) → ⊥) }
    ensures refused { SentOver (Err NotBenchFile) plain (Some []) (Some []) (Some (codes "file 11\n")) × (SentOver (Err NotBenchFile) plain (Some []) (Some []) (Some []) → ⊥) }
{}

/// The number is that of the line, and a script that reads as calls is refused for none. Want of memory can refuse any.
#[tactic(auto, using(crate::proofs::Talking::fault))]
pub fn fault_of()
    ensures { FaultOf (Err 7) (NoCommand 7) × (FaultOf (Err 7) (NoCommand 8) → ⊥) × (FaultOf (Ok []) (NoCommand 7) → ⊥) }
{}

/// A word that reads as an instruction has its line and is counted, and without words there is no line.
#[tactic(auto, using(crate::proofs::Listing::one_word, crate::proofs::Listing::no_word))]
pub fn listed()
    ensures instruction { Listed 0 (word ∷ []) line 1 × (Listed 0 (word ∷ []) line 0 → ⊥) }
    ensures none { Listed 0 [] [] 0 × (Listed 0 [] (codes "a") 0 → ⊥) }
{}

/// Without words nothing is added.
#[tactic(auto, using(crate::proofs::Listing::added))]
pub fn adds()
    ensures { Adds 0 [] (codes "a") (codes "a") 0 × (Adds 0 [] (codes "a") (codes "ab") 0 → ⊥) × (Adds 0 [] (codes "a") (codes "a") 1 → ⊥) }
{}

/// The line of the counts stands in every listing.
#[tactic(auto, using(crate::proofs::Listing::counts_listed))]
pub fn whole_listing()
    ensures { Lists 0 [] (summary_of 0 0) × (Lists 0 [] [] → ⊥) × (Lists 0 [] (summary_of 0 1) → ⊥) }
{}

/// A file without an image has the line of the counts, and a refused one its number.
#[tactic(auto, using(crate::proofs::Listing::counts_listed, crate::proofs::Listing::refused_told))]
pub fn file_listed()
    ensures file { Answers (Ok file) (summary_of 0 0) × (Answers (Ok file) [] → ⊥) }
    ensures refused { Answers (Err NotBenchFile) (codes "file 11\n") × (Answers (Err NotBenchFile) (codes "file 12\n") → ⊥) }
{}

/// PC has 32 bits on a bench, and not in every state.
#[tactic(auto, using(crate::proofs::Talking::fits))]
pub fn pc_fits()
    ensures { PcFits (fresh_of empty) × (PcFits at_two_to_32 → ⊥) }
{}
