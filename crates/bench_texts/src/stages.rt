// How far a text is brought.
ghost use Rattle.std.specs.Prelude.{◌≡◌, ◌≢◌, MatchOption};
ghost use Rattle.bench_texts.specs.Stages.{word_of};
ghost use Rattle.bench_texts.specs.declared.stages.Stage.{Stage as StageData};

/// How far a text is brought: it is made, read as a tree, its names are tied to their declarations, its types are checked, its
/// first command is lowered, and the terms of this one's problem are counted once more.
#[derive(Clone, Copy, Debug, PartialEq, Eq)]
pub enum Stage {
    Text,
    Tree,
    Names,
    Types,
    Problem,
    Terms,
}

/// The stage that this word asks for; `None` where there is none.
pub fn stage_of(word: &str) -> Option<Stage>
    ensures { MatchOption result ((s : StageData) → word.now ≢ word_of s) (λ s. word.now ≡ word_of s) }
{
    match word {
        "text" => Some(Stage::Text),
        "parse" => Some(Stage::Tree),
        "names" => Some(Stage::Names),
        "types" => Some(Stage::Types),
        "lower" => Some(Stage::Problem),
        "terms" => Some(Stage::Terms),
        _ => None,
    }
}
