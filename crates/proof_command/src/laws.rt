// Laws of the definitions: each is the contract of a function that does nothing.
ghost use Rattle.std.specs.Prelude.{◌≡◌, ℕ, List};
ghost use Rattle.outside_io.specs.declared.status.Status.{Status};
ghost use Rattle.proof_command.specs.Answer.{IsAnswerTo};

/// Bytes have one answer: one status, and one text.
pub fn one_answer()
    ensures status { (bytes : List ℕ) (status other : Status) (text more : List ℕ) → IsAnswerTo bytes status text → IsAnswerTo bytes other more → status ≡ other }
    ensures text { (bytes : List ℕ) (status other : Status) (text more : List ℕ) → IsAnswerTo bytes status text → IsAnswerTo bytes other more → text ≡ more }
{}
