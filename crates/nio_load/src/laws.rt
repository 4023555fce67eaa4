//! Laws of loads. Each is the contract of a function that does nothing.
ghost use Rattle.std.specs.Prelude.{◌≡◌, ℕ, List};
ghost use Rattle.nio_base.specs.declared.limits.Limits.{Limits};
ghost use Rattle.nio_language.specs.Script.{IsScript};
ghost use Rattle.nio_language.specs.declared.call.ScriptCall.{ScriptCall};
ghost use Rattle.nio_plain.specs.Answer.{answer_to};
ghost use Rattle.nio_plain.specs.ScriptState.{script_opening};
ghost use Rattle.nio_plain.specs.declared.rules.Rules.{Rules};
ghost use Rattle.nio_load.specs.Generator.{generated};
ghost use Rattle.nio_load.specs.Summary.{history_of, replies_from};

/// A generated text is a script.
pub fn generated_law()
    ensures { (rounds : ℕ) → (calls : List ScriptCall) × IsScript (generated rounds) calls }
{}

/// The replies that a summary counts are those of the history text that `script` writes for the
/// calls.
pub fn summary_law()
    ensures { (rules : Rules) (l : Limits) (calls : List ScriptCall) →
        answer_to rules l calls ≡ history_of 1 calls (replies_from rules l script_opening calls) }
{}
