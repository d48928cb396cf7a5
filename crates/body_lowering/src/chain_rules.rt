// The rules for chains of operands.
ghost use Rattle.std.specs.Prelude.{◌≡◌, map, IfOk, OnOk};
ghost use Rattle.rel_formula.specs.Kernel.{more_formulas};
ghost use Rattle.named_model.specs.Phrase.{links_of};
ghost use Rattle.named_model.specs.View.{phrase_view, link_view, named_view};
ghost use Rattle.body_lowering.specs.Kernel.View.{part_view};
ghost use Rattle.lowering_rules.specs.Parts.{formula_in, operator_lowered, list_lowered};
ghost use Rattle.lowering_rules.specs.Lowering.{base_within, lowered, links_lowered, operands_lowered};
ghost use Rattle.body_lowering.specs.Locals.{locals_view};
ghost use Rattle.body_lowering.specs.Lowers.{LowersWithin};

use crate::kernel_parts::Part;
use crate::kernel_parts::operators::{joins_all, list_of};
use crate::locals::Local;
use crate::operations::operated;
use crate::room::{Depth, Room};
use crate::rules::Rules;
use alloy_syntax::tree::Operator;
use lowering_rules::LowerStop;
use named_model::Named;
use named_model::phrase::{Link, Phrase};
use std::alloc::Global;

impl<
    F: Fn(Global, &Named, Depth, &mut Vec<Local>, &mut Room, &Phrase) -> Result<Part, LowerStop>,
> Rules<F> {
    /// A chain. Each operand but those of one list is a level above those before it.
    pub fn chain(
        &self,
        model: &Named,
        at: Depth,
        locals: &mut Vec<Local>,
        room: &mut Room,
        first: &Phrase,
        links: &[Link],
    ) -> Result<Part, LowerStop>
        requires { LowersWithin at.levels (F.pre self.now.lower) (F.post self.now.lower) }
        ensures value { IfOk result (λ p. part_view p ≡ links_lowered (base_within at.calls (named_view model.now)) (locals_view locals.old.items) at.binders (lowered (base_within at.calls (named_view model.now)) (locals_view locals.old.items) at.binders (phrase_view first.now)) (links_of (map link_view links.now))) }
        ensures locals { OnOk result (locals_view locals.new.items ≡ locals_view locals.old.items) }
    {
        let inside = Depth {
            levels: at.levels.saturating_sub(levels_of_links(links)),
            ..at
        };
        let part = self.lower(model, inside, locals, room, first)?;
        Ok(self.linked(model, at, locals, room, part, links)?)
    }

    // What a chain becomes that begins with this part.
    fn linked(
        &self,
        model: &Named,
        at: Depth,
        locals: &mut Vec<Local>,
        room: &mut Room,
        first: Part,
        links: &[Link],
    ) -> Result<Part, LowerStop>
        requires { LowersWithin at.levels (F.pre self.now.lower) (F.post self.now.lower) }
        ensures value { IfOk result (λ p. part_view p ≡ links_lowered (base_within at.calls (named_view model.now)) (locals_view locals.old.items) at.binders (part_view first) (links_of (map link_view links.now))) }
        ensures locals { OnOk result (locals_view locals.new.items ≡ locals_view locals.old.items) }
    {
        let mut part = first;
        for place in 0..links.len() {
            let link = &links[place];
            if joins_all(link.operator) {
                let rest = &links[place..];
                let operator = link.operator;
                return Ok(self.list(model, at, locals, room, operator, part, rest)?);
            }
            part = self.with_link(model, at, locals, room, part, link)?;
        }
        Ok(part)
    }

    // The operand of a link.
    fn operand(
        &self,
        model: &Named,
        at: Depth,
        locals: &mut Vec<Local>,
        room: &mut Room,
        link: &Link,
    ) -> Result<Part, LowerStop>
        requires { LowersWithin at.levels (F.pre self.now.lower) (F.post self.now.lower) }
        ensures value { IfOk result (λ p. part_view p ≡ lowered (base_within at.calls (named_view model.now)) (locals_view locals.old.items) at.binders (link_view link.now).operand) }
        ensures locals { OnOk result (locals_view locals.new.items ≡ locals_view locals.old.items) }
    {
        Ok(self.lower(model, at, locals, room, &link.operand)?)
    }

    // What a part becomes with one link behind it.
    fn with_link(
        &self,
        model: &Named,
        at: Depth,
        locals: &mut Vec<Local>,
        room: &mut Room,
        part: Part,
        link: &Link,
    ) -> Result<Part, LowerStop>
        requires { LowersWithin at.levels (F.pre self.now.lower) (F.post self.now.lower) }
        ensures value { IfOk result (λ p. part_view p ≡ operator_lowered (link_view link.now).operator (part_view part) (lowered (base_within at.calls (named_view model.now)) (locals_view locals.old.items) at.binders (link_view link.now).operand)) }
        ensures locals { OnOk result (locals_view locals.new.items ≡ locals_view locals.old.items) }
    {
        let other = self.operand(model, at, locals, room, link)?;
        Ok(operated(self.alloc, room, at.levels, link.operator, part, other)?)
    }

    // A chain of `&&` or of `||`.
    fn list(
        &self,
        model: &Named,
        at: Depth,
        locals: &mut Vec<Local>,
        room: &mut Room,
        operator: Operator,
        first: Part,
        links: &[Link],
    ) -> Result<Part, LowerStop>
        requires { LowersWithin at.levels (F.pre self.now.lower) (F.post self.now.lower) }
        ensures value { IfOk result (λ p. part_view p ≡ list_lowered operator (more_formulas (formula_in (part_view first)) (operands_lowered (base_within at.calls (named_view model.now)) (locals_view locals.old.items) at.binders (links_of (map link_view links.now))))) }
        ensures locals { OnOk result (locals_view locals.new.items ≡ locals_view locals.old.items) }
    {
        let mut operands = Vec::new(self.alloc);
        operands.push(first.into_formula(self.alloc))?;
        for link in links {
            let part = self.operand(model, at, locals, room, link)?;
            operands.push(part.into_formula(self.alloc))?;
        }
        Ok(list_of(operator, operands))
    }
}

// How many levels a chain has behind its first operand.
fn levels_of_links(links: &[Link]) -> u32 {
    match links.first() {
        Some(link) if joins_all(link.operator) => 1,
        _ => u32::try_from(links.len()).unwrap_or(u32::MAX),
    }
}
