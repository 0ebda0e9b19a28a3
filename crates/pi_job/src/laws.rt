// What the definitions of texts mean.

ghost use Rattle.std.specs.Prelude.{◌≡◌, ◌≢◌, ◌↔◌, ◌<◌, ℕ, List, [], ◌∷◌, ◌++◌, length, All, Ok, Err};
ghost use Rattle.pi_model.specs.Program.{Program};
ghost use Rattle.pi_model.specs.declared.numbers.ClassNo.{ClassNo};
ghost use Rattle.pi_job.specs.declared.job.Job.{Job};
ghost use Rattle.pi_job.specs.Lines.{lines};
ghost use Rattle.pi_job.specs.Job.{job_of, SaysJob, IsWrongLine};
ghost use Rattle.pi_job.specs.Selection.{selection_of, SaysSelection, IsWrongClass};

/// The lines of a text: a newline ends one, and the last, if it has a byte, may lack it.
pub fn lines_of_text()
    ensures none { lines [] ≡ [] }
    ensures ended { (line rest : List ℕ) → All (λ b. b ≢ 10) line → lines (line ++ 10 ∷ rest) ≡ line ∷ lines rest }
    ensures last { (line : List ℕ) → All (λ b. b ≢ 10) line → 0 < length line → lines line ≡ line ∷ [] }
{}

/// What a text says, and its first wrong line: the text of a job, and that of a selection, each says its value exactly where
/// its lines are taken one after another and the value is the whole of what they say; and a line is named exactly where it is
/// the first that is not taken.
pub fn first_broken_line()
    ensures job { (name bytes : List ℕ) (job : Job) → (job_of name bytes ≡ Ok job) ↔ SaysJob name bytes job }
    ensures job_line { (name bytes : List ℕ) (n : ℕ) → (job_of name bytes ≡ Err n) ↔ IsWrongLine name bytes n }
    ensures selection { (p : Program) (file : ℕ) (bytes : List ℕ) (classes : List ClassNo) → (selection_of p file bytes ≡ Ok classes) ↔ SaysSelection p file bytes classes }
    ensures selection_line { (p : Program) (file : ℕ) (bytes : List ℕ) (n : ℕ) → (selection_of p file bytes ≡ Err n) ↔ IsWrongClass p file bytes n }
{}
