// Scripts that are made for a load.
ghost use Rattle.std.specs.Prelude.{◌≡◌, ◌≤◌, ◌<◌, ◌++◌, IfOk};
ghost use Rattle.script_format.specs.Generated.{numbered, first_model, second_model, third_model, last_model, models_text, session_text, generated};

use itoa::Buffer;
use std::alloc::{AllocError, Global};

/// The script of this number, from 1 to 16: four models, and four sessions for each number up to it, each of which asks
/// for all that its model has.
pub fn generate(alloc: Global, number: u32) -> Result<Vec<u8>, AllocError>
    requires least { 1 ≤ number }
    requires most { number ≤ 16 }
    ensures { IfOk result (λ bytes. bytes.items ≡ generated number) }
{
    let mut out = Vec::new(alloc);
    push_models(&mut out, 3 + number % 6)?;
    for place in 0..4 * number {
        push_session(&mut out, place)?;
    }
    Ok(out)
}

// Adds a text with a number in it.
fn push_numbered(
    out: &mut Vec<u8>,
    before: &[u8],
    number: u32,
    behind: &[u8],
) -> Result<(), AllocError>
    ensures { IfOk result (λ _. out.new.items ≡ out.old.items ++ numbered before.now number behind.now) }
{
    let mut buffer = Buffer::new();
    out.extend_from_slice(before)?;
    out.extend_from_slice(buffer.format(number).as_bytes())?;
    out.extend_from_slice(behind)
}

// Adds the models, three of them with this scope.
fn push_models(out: &mut Vec<u8>, scope: u32) -> Result<(), AllocError>
    ensures { IfOk result (λ _. out.new.items ≡ out.old.items ++ models_text scope) }
{
    push_first(out, scope)?;
    push_second(out, scope)?;
    push_third(out, scope)?;
    push_last(out)
}

#[tactic(auto, unfolding(crate::specs::Generated::first_model))]
fn push_first(out: &mut Vec<u8>, scope: u32) -> Result<(), AllocError>
    ensures { IfOk result (λ _. out.new.items ≡ out.old.items ++ first_model scope) }
{
    let before = b"== model m1\nsig A { f: set A } run { some f } for ";
    push_numbered(out, before, scope, b"\n")
}

#[tactic(auto, unfolding(crate::specs::Generated::second_model))]
fn push_second(out: &mut Vec<u8>, scope: u32) -> Result<(), AllocError>
    ensures { IfOk result (λ _. out.new.items ≡ out.old.items ++ second_model scope) }
{
    let before =
        b"== model m2\nsig A { f: set A } run { some disj a, b, c: A | a->b + b->c in f } for exactly ";
    push_numbered(out, before, scope, b" A\n")
}

#[tactic(auto, unfolding(crate::specs::Generated::third_model))]
fn push_third(out: &mut Vec<u8>, scope: u32) -> Result<(), AllocError>
    ensures { IfOk result (λ _. out.new.items ≡ out.old.items ++ third_model scope) }
{
    let before =
        b"== model m3\nsig Name, Addr {} sig Book { addr: Name -> lone Addr } pred show [b: Book] { #b.addr > 1 } run show for ";
    push_numbered(out, before, scope, b" but 1 Book\n")
}

#[tactic(auto, unfolding(crate::specs::Generated::last_model))]
fn push_last(out: &mut Vec<u8>) -> Result<(), AllocError>
    ensures { IfOk result (λ _. out.new.items ≡ out.old.items ++ last_model) }
{
    out.extend_from_slice(
        b"== model m4\nsig P { h: one Q } sig Q {} run { all disj p, q: P | p.h != q.h } for exactly 4 P, exactly 3 Q\n",
    )
}

// Adds the session at this place, from 0.
fn push_session(out: &mut Vec<u8>, place: u32) -> Result<(), AllocError>
    requires { place < 1000 }
    ensures { IfOk result (λ _. out.new.items ≡ out.old.items ++ session_text place) }
{
    push_numbered(out, b"== session s", place + 1, b" m")?;
    push_numbered(out, b"", place % 4 + 1, b" 1\nall 100\n")
}
