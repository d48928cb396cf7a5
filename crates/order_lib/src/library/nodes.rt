// Expressions and formulas that stand at the place of an ordering's name.
ghost use Rattle.std.specs.Prelude.{◌≡◌, ◌∷◌, [], map, codes, IfOk};
ghost use Rattle.alloy_syntax.specs.View.{view, declaration_view};
ghost use Rattle.order_lib.specs.Library as spec;

use crate::library::names::{one_name, ordered, own, plain};
use alloy_syntax::tree::{
    Comparing, Comparison, Declaration, Link, Name, Node, Open, Operator, Prefix, Step,
};
use std::alloc::{AllocError, Global};

/// A variable.
pub fn variable(alloc: Global, ordering: &Open, text: &str) -> Result<Node, AllocError>
    ensures { IfOk result (λ n. view n ≡ spec.variable ordering.now text.now) }
{
    Ok(Node::Named(plain(alloc, ordering, text)?))
}

/// The ordered signature.
pub fn all_atoms(alloc: Global, ordering: &Open) -> Result<Node, AllocError>
    ensures { IfOk result (λ n. view n ≡ spec.all_atoms ordering.now) }
{
    Ok(Node::Named(ordered(alloc, ordering)?))
}

/// A join.
pub fn join(alloc: Global, ordering: &Open, left: Node, right: Node) -> Result<Node, AllocError>
    ensures { IfOk result (λ n. view n ≡ spec.join ordering.now (view left) (view right)) }
{
    let mut steps = Vec::new(alloc);
    steps.push(Step::Join(ordering.alias.place, right))?;
    Ok(Node::Path(Box::new(alloc, left)?, steps))
}

/// Something in front of its operand.
pub fn in_front(
    alloc: Global,
    ordering: &Open,
    prefix: Prefix,
    operand: Node,
) -> Result<Node, AllocError>
    ensures { IfOk result (λ n. view n ≡ spec.in_front ordering.now prefix (view operand)) }
{
    let operand = Box::new(alloc, operand)?;
    Ok(Node::Prefixed(prefix, ordering.alias.place, operand))
}

/// An operator between its operands.
pub fn between(
    alloc: Global,
    ordering: &Open,
    left: Node,
    operator: Operator,
    right: Node,
) -> Result<Node, AllocError>
    ensures { IfOk result (λ n. view n ≡ spec.between ordering.now (view left) operator (view right)) }
{
    let mut links = Vec::new(alloc);
    links.push(Link {
        operator,
        place: ordering.alias.place,
        operand: right,
    })?;
    Ok(Node::Chain(Box::new(alloc, left)?, links))
}

/// A comparison.
pub fn compare(
    alloc: Global,
    ordering: &Open,
    left: Node,
    comparison: Comparison,
    right: Node,
) -> Result<Node, AllocError>
    ensures { IfOk result (λ n. view n ≡ spec.compare ordering.now (view left) comparison (view right)) }
{
    let left = Box::new(alloc, left)?;
    let right = Box::new(alloc, right)?;
    let comparing = Comparing {
        comparison,
        negated: false,
        place: ordering.alias.place,
    };
    Ok(Node::Compared(left, comparing, right))
}

/// A call of what the ordering declares.
pub fn call(
    alloc: Global,
    ordering: &Open,
    word: &str,
    arguments: Vec<Node>,
) -> Result<Node, AllocError>
    ensures { IfOk result (λ n. view n ≡ spec.call ordering.now word.now (map view arguments.items)) }
{
    let mut steps = Vec::new(alloc);
    steps.push(Step::Brackets(ordering.alias.place, arguments))?;
    let called = Box::new(alloc, Node::Named(own(alloc, ordering, word)?))?;
    Ok(Node::Path(called, steps))
}

// A field of the signature that the ordering declares, behind this signature.
fn of_own(alloc: Global, ordering: &Open, field: &str) -> Result<Node, AllocError>
    ensures { IfOk result (λ n. view n ≡ spec.own_field ordering.now field.now) }
{
    let signature = own(alloc, ordering, "Ord")?;
    let field = own(alloc, ordering, field)?;
    join(alloc, ordering, Node::Named(signature), Node::Named(field))
}

/// The first atom.
pub fn first_atom(alloc: Global, ordering: &Open) -> Result<Node, AllocError>
    ensures { IfOk result (λ n. view n ≡ spec.first_atom ordering.now) }
{
    of_own(alloc, ordering, "First")
}

/// The pairs of neighbours.
pub fn neighbours(alloc: Global, ordering: &Open) -> Result<Node, AllocError>
    ensures { IfOk result (λ n. view n ≡ spec.neighbours ordering.now) }
{
    of_own(alloc, ordering, "Next")
}

/// The pairs of neighbours, turned round.
pub fn reversed(alloc: Global, ordering: &Open) -> Result<Node, AllocError>
    ensures { IfOk result (λ n. view n ≡ spec.reversed ordering.now) }
{
    let pairs = neighbours(alloc, ordering)?;
    in_front(alloc, ordering, Prefix::Transpose, pairs)
}

/// Variables whose domain is the ordered signature.
pub fn declared(alloc: Global, ordering: &Open, names: Vec<Name>) -> Result<Declaration, AllocError>
    ensures { IfOk result (λ d. declaration_view d ≡ spec.declared ordering.now names.items) }
{
    let domain = all_atoms(alloc, ordering)?;
    Ok(Declaration {
        disjoint: false,
        names,
        mark: None,
        domain,
    })
}

/// One variable whose domain is the ordered signature.
pub fn one_variable(
    alloc: Global,
    ordering: &Open,
    text: &str,
) -> Result<Vec<Declaration>, AllocError>
    ensures { IfOk result (λ ds. map declaration_view ds.items ≡ spec.declared ordering.now (spec.plain ordering.now text.now ∷ []) ∷ []) }
{
    let names = one_name(alloc, plain(alloc, ordering, text)?)?;
    one_declaration(alloc, declared(alloc, ordering, names)?)
}

/// One declaration.
pub fn one_declaration(
    alloc: Global,
    declaration: Declaration,
) -> Result<Vec<Declaration>, AllocError>
    ensures { IfOk result (λ ds. ds.items ≡ declaration ∷ []) }
{
    let mut declarations = Vec::new(alloc);
    declarations.push(declaration)?;
    Ok(declarations)
}

/// One node.
pub fn one_node(alloc: Global, node: Node) -> Result<Vec<Node>, AllocError>
    ensures { IfOk result (λ ns. ns.items ≡ node ∷ []) }
{
    let mut nodes = Vec::new(alloc);
    nodes.push(node)?;
    Ok(nodes)
}
