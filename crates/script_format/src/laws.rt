// Laws of the definitions: each is the contract of a function that does nothing.
ghost use Rattle.std.specs.Prelude.{◌≡◌, ◌≤◌, ◌<◌, ℕ, List, length, All};
ghost use Rattle.script_format.specs.declared.entries.Script.{Script};
ghost use Rattle.script_format.specs.declared.fault.ScriptFault.{ScriptFault};
ghost use Rattle.script_format.specs.Keys.{keys_of};
ghost use Rattle.script_format.specs.Limits.{IsAllowed, asked_in};
ghost use Rattle.script_format.specs.Reading.{most_asked};
ghost use Rattle.script_format.specs.Script.{IsScript, HasFault};

/// Bytes are one script at most.
pub fn bytes_say_one_script()
    ensures { (bytes : List ℕ) (s t : Script) → IsScript bytes s → IsScript bytes t → s ≡ t }
{}

/// Bytes have one fault at most, and those of a script have none.
pub fn bytes_have_one_fault()
    ensures one { (bytes : List ℕ) (f g : ScriptFault) → HasFault bytes f → HasFault bytes g → f ≡ g }
    ensures none { (bytes : List ℕ) (s : Script) (f : ScriptFault) → IsScript bytes s → HasFault bytes f → ⊥ }
{}

/// A script has at most 16 models, 64 sessions and 16 pairs of a model and a command. Its sessions are on its models, and
/// the models' texts have at most 1,048,576 bytes. Its sessions ask for at most 20,000 scenarios, with budgets of at most
/// 100,000.
pub fn scripts_keep_to_limits()
    ensures models { (bytes : List ℕ) (s : Script) → IsScript bytes s → length s.models ≤ 16 }
    ensures sessions { (bytes : List ℕ) (s : Script) → IsScript bytes s → length s.sessions ≤ 64 }
    ensures keys { (bytes : List ℕ) (s : Script) → IsScript bytes s → length (keys_of s.sessions) ≤ 16 }
    ensures named { (bytes : List ℕ) (s : Script) → IsScript bytes s → All (λ x. x.model < length s.models) s.sessions }
    ensures asked { (bytes : List ℕ) (s : Script) → IsScript bytes s → asked_in s.sessions ≤ most_asked }
    ensures allowed { (bytes : List ℕ) (s : Script) → IsScript bytes s → All (λ x. All IsAllowed x.commands) s.sessions }
    ensures small { (bytes : List ℕ) (s : Script) → IsScript bytes s → All (λ m. length m.text ≤ 1048576) s.models }
{}
