//! Laws of scripts and histories. Each is the contract of a function that does nothing.
ghost use Rattle.std.specs.Prelude.{◌≡◌, ℕ, List, All};
ghost use Rattle.nio_base.specs.declared.limits.Limits.{Limits};
ghost use Rattle.nio_language.specs.Calls.{IsLaterCall};
ghost use Rattle.nio_language.specs.Script.{IsScript};
ghost use Rattle.nio_language.specs.declared.call.ScriptCall.{ScriptCall};
ghost use Rattle.nio_plain.specs.declared.rules.Rules.{Rules};
ghost use Rattle.nio_plain.specs.declared.rules.Rules.TheVariants.{First, Now};
ghost use Rattle.nio_script.specs.Check.{HasLegalHistory};
ghost use Rattle.nio_script.specs.History.{Entry, IsHistory};

/// The history that `script` writes for a script is a legal history of its calls, by the rules of now.
/// The answer by the first rules is legal by those where no call came later than they.
pub fn history_law()
    ensures now { (l : Limits) (text : List ℕ) (calls : List ScriptCall) →
        IsScript text calls → HasLegalHistory Now l calls }
    ensures first { (l : Limits) (text : List ℕ) (calls : List ScriptCall) →
        IsScript text calls → All (λ c. ¬ IsLaterCall c.call) calls → HasLegalHistory First l calls }
{}

/// A text is a script of one list of calls, and a history of one list of entries by each of the rules.
/// What it is by the first rules it is by those of now.
pub fn one_reading_law()
    ensures script { (text : List ℕ) (calls others : List ScriptCall) →
        IsScript text calls → IsScript text others → calls ≡ others }
    ensures history { (rules : Rules) (text : List ℕ) (entries others : List Entry) →
        IsHistory rules text entries → IsHistory rules text others → entries ≡ others }
    ensures first { (text : List ℕ) (entries : List Entry) →
        IsHistory First text entries → IsHistory Now text entries }
{}
