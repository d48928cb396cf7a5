// Laws of the definitions: each is the contract of a function that does nothing.
ghost use Rattle.std.specs.Prelude.{◌≡◌, ℕ, List, [], ◌∷◌, ◌++◌, All};
ghost use Rattle.rel_formula.specs.Bounds.{Bounded};
ghost use Rattle.std.specs.List.{AllZip};
ghost use Rattle.session_words.specs.declared.commands.Command.{Command};
ghost use Rattle.translation_rules.specs.Translation.{Translated};
ghost use Rattle.session_rules.specs.States.{State};
ghost use Rattle.session_rules.specs.Steps.{Exchange};
ghost use Rattle.session_rules.specs.Transcripts.{IsTranscript};
ghost use Rattle.session_rules.specs.declared.answers.Reply.{Reply};
ghost use Rattle.script_text.specs.Asked.{AsksForSome};
ghost use Rattle.script_text.specs.Printed.{Printed, all_printed};
ghost use Rattle.script_text.specs.Replies.{PrintedSession, IsReplyText, IsSessionText, IsOutput};
ghost use Rattle.script_text.specs.Printable.{IsPrintedFor, AreAlike, MayPrint};

/// The output of a script tells all that is printed: where sessions are the same but for what was answered to their commands,
/// and their outputs are equal, the same was answered.
pub fn equal_outputs_agree()
    ensures { (commands : List (List Command)) (ss ts : List PrintedSession) (text : List ℕ) → AllZip IsPrintedFor commands ss → AllZip IsPrintedFor commands ts
        → AllZip AreAlike ss ts → IsOutput ss text → IsOutput ts text → ss ≡ ts }
{}

/// The text of a session goes on with the lines of the next reply, and the output of a script with the text of the next
/// session.
pub fn texts_go_on()
    ensures session { (p : Bounded) (name : List ℕ) (replies : List Printed) (text : List ℕ) (next : Printed) (lines : List ℕ) → IsSessionText p name replies text → IsReplyText p next lines
        → IsSessionText p name (replies ++ next ∷ []) (text ++ lines) }
    ensures output { (ss : List PrintedSession) (text : List ℕ) (next : PrintedSession) (lines : List ℕ) → IsOutput ss text → IsSessionText next.problem next.name next.replies lines
        → IsOutput (ss ++ next ∷ []) (text ++ lines) }
{}

/// What is printed has one text: a reply its lines, and sessions their output.
pub fn what_is_printed_has_one_text()
    ensures reply { (p : Bounded) (r : Printed) (text words : List ℕ) → IsReplyText p r text → IsReplyText p r words → text ≡ words }
    ensures output { (ss : List PrintedSession) (text words : List ℕ) → IsOutput ss text → IsOutput ss words → text ≡ words }
{}

/// What is printed of a transcript may be printed for its commands, where each that asks for several scenarios asks for one at
/// least.
pub fn transcripts_may_be_printed()
    ensures { (p : Bounded) (t : Translated) (old : State) (commands : List Command) (replies : List Reply) (floors : List (List ℕ)) (xs : List Exchange) → All AsksForSome commands
        → IsTranscript p old commands replies floors xs → AllZip MayPrint commands (all_printed t floors replies) }
{}
