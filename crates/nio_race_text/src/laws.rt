//! Laws of race texts. Each is the contract of a function that does nothing.
ghost use Rattle.std.specs.Prelude.{◌≡◌, ◌↔◌, ◌∷◌, ◌++◌, [], ℕ, List};
ghost use Rattle.nio_language.specs.Script.{AreCalls};
ghost use Rattle.nio_language.specs.declared.call.ScriptCall.{ScriptCall};
ghost use Rattle.nio_race_text.specs.RaceLines.{AreRaceLines};
ghost use Rattle.nio_race_text.specs.RaceText.{AreSomeRaceText, IsFirstBadRace, IsInRace, IsInSetup, IsRaceText};
ghost use Rattle.nio_race_text.specs.RaceText.{go_line};
ghost use Rattle.nio_race_text.specs.declared.call.RaceLine.{RaceLine};

/// A text is a race text of one setup and one race, or has one first line that isn't in the grammar at
/// its place, and not both.
pub fn one_race_law()
    ensures calls { (text : List ℕ) (setup calls : List ScriptCall) (race others : List RaceLine) →
        IsRaceText text setup race → IsRaceText text calls others → (setup ≡ calls) × (race ≡ others) }
    ensures bad { (text : List ℕ) (m n : ℕ) → IsFirstBadRace text m → IsFirstBadRace text n → m ≡ n }
    ensures apart { (text : List ℕ) (setup : List ScriptCall) (race : List RaceLine) (n : ℕ) →
        IsRaceText text setup race → IsFirstBadRace text n → ⊥ }
{}

/// Behind lines of the setup a race text goes on with a line of a script or `go`; behind lines of the
/// race with a blank line or a call that may stand there. So neither a second `go` nor `selector` nor
/// `channel` stands behind `go`, and no `block` before it.
pub fn next_line_law()
    ensures setup { (before : List (List ℕ)) (line : List ℕ) (setup : List ScriptCall) →
        AreCalls before setup → AreSomeRaceText (before ++ line ∷ []) ↔ IsInSetup line }
    ensures race { (front back : List (List ℕ)) (line : List ℕ) (setup : List ScriptCall) (race : List RaceLine) →
        AreCalls front setup → AreRaceLines back race →
        AreSomeRaceText (front ++ go_line ∷ back ++ line ∷ []) ↔ IsInRace line }
{}
