// The rules for paths: joins and brackets.
ghost use Rattle.std.specs.Prelude.{◌≡◌, map, IfOk, OnOk};
ghost use Rattle.rel_formula.specs.View.{expression_tree};
ghost use Rattle.named_model.specs.Phrase.{steps_of};
ghost use Rattle.named_model.specs.View.{phrase_view, phrases_view, step_view, named_view};
ghost use Rattle.body_lowering.specs.Kernel.View.{part_view};
ghost use Rattle.lowering_rules.specs.Parts.{brackets_lowered};
ghost use Rattle.lowering_rules.specs.Lowering.{base_within, lowered, expressions_lowered, steps_lowered};
ghost use Rattle.body_lowering.specs.Locals.{locals_view};
ghost use Rattle.body_lowering.specs.Steps.{step_lowered};
ghost use Rattle.body_lowering.specs.Lowers.{LowersWithin};

use crate::kernel_parts::Part;
use crate::kernel_parts::expressions::join;
use crate::kernel_parts::operators::joined;
use crate::locals::Local;
use crate::room::{Depth, Room};
use crate::rules::Rules;
use lowering_rules::LowerStop;
use named_model::Named;
use named_model::phrase::{Phrase, Step};
use rel_formula::Expression;
use std::alloc::Global;

impl<
    F: Fn(Global, &Named, Depth, &mut Vec<Local>, &mut Room, &Phrase) -> Result<Part, LowerStop>,
> Rules<F> {
    /// An expression with the joins and brackets behind it. Each is a level above what stands before it.
    pub fn path(
        &self,
        model: &Named,
        at: Depth,
        locals: &mut Vec<Local>,
        room: &mut Room,
        head: &Phrase,
        steps: &[Step],
    ) -> Result<Part, LowerStop>
        requires { LowersWithin at.levels (F.pre self.now.lower) (F.post self.now.lower) }
        ensures value { IfOk result (λ p. part_view p ≡ steps_lowered (base_within at.calls (named_view model.now)) (locals_view locals.old.items) at.binders (lowered (base_within at.calls (named_view model.now)) (locals_view locals.old.items) at.binders (phrase_view head.now)) (steps_of (map step_view steps.now))) }
        ensures locals { OnOk result (locals_view locals.new.items ≡ locals_view locals.old.items) }
    {
        let inside = Depth {
            levels: at.levels.saturating_sub(levels_of_steps(steps)),
            ..at
        };
        let part = self.lower(model, inside, locals, room, head)?;
        Ok(self.stepped(model, at, locals, room, part, steps)?)
    }

    // What a part becomes with steps behind it.
    fn stepped(
        &self,
        model: &Named,
        at: Depth,
        locals: &mut Vec<Local>,
        room: &mut Room,
        head: Part,
        steps: &[Step],
    ) -> Result<Part, LowerStop>
        requires { LowersWithin at.levels (F.pre self.now.lower) (F.post self.now.lower) }
        ensures value { IfOk result (λ p. part_view p ≡ steps_lowered (base_within at.calls (named_view model.now)) (locals_view locals.old.items) at.binders (part_view head) (steps_of (map step_view steps.now))) }
        ensures locals { OnOk result (locals_view locals.new.items ≡ locals_view locals.old.items) }
    {
        let mut part = head;
        for step in steps {
            part = self.with_step(model, at, locals, room, part, step)?;
        }
        Ok(part)
    }

    // What a part becomes with one step behind it.
    fn with_step(
        &self,
        model: &Named,
        at: Depth,
        locals: &mut Vec<Local>,
        room: &mut Room,
        head: Part,
        step: &Step,
    ) -> Result<Part, LowerStop>
        requires { LowersWithin at.levels (F.pre self.now.lower) (F.post self.now.lower) }
        ensures value { IfOk result (λ p. part_view p ≡ step_lowered (base_within at.calls (named_view model.now)) (locals_view locals.old.items) at.binders (part_view head) (step_view step.now)) }
        ensures locals { OnOk result (locals_view locals.new.items ≡ locals_view locals.old.items) }
    {
        match step {
            Step::Join(_, other) => {
                let other = self.lower(model, at, locals, room, other)?;
                Ok(joined(self.alloc, head, other)?)
            }
            Step::Brackets(_, given) => {
                let head = head.into_expression();
                let e = self.brackets(model, at, locals, room, head, given)?;
                Ok(Part::Relation(e))
            }
        }
    }

    // An expression with brackets behind it: each argument is joined with what stands behind it.
    fn brackets(
        &self,
        model: &Named,
        at: Depth,
        locals: &mut Vec<Local>,
        room: &mut Room,
        head: Expression,
        phrases: &[Phrase],
    ) -> Result<Expression, LowerStop>
        requires { LowersWithin at.levels (F.pre self.now.lower) (F.post self.now.lower) }
        ensures value { IfOk result (λ e. expression_tree e ≡ brackets_lowered (expression_tree head) (expressions_lowered (base_within at.calls (named_view model.now)) (locals_view locals.old.items) at.binders (phrases_view phrases.now))) }
        ensures locals { OnOk result (locals_view locals.new.items ≡ locals_view locals.old.items) }
    {
        let mut all = head;
        for phrase in phrases {
            let another = self.expression(model, at, locals, room, phrase)?;
            all = join(self.alloc, another, all)?;
        }
        Ok(all)
    }
}

// How many levels joins and brackets have.
fn levels_of_steps(steps: &[Step]) -> u32 {
    let mut levels: u32 = 0;
    for step in steps {
        levels = levels.saturating_add(levels_of_step(step));
    }
    levels
}

fn levels_of_step(step: &Step) -> u32 {
    match step {
        Step::Join(_, _) => 1,
        Step::Brackets(_, arguments) => u32::try_from(arguments.len()).unwrap_or(u32::MAX),
    }
}
