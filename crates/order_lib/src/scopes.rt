// Scopes under which ordered signatures are exact.
ghost use Rattle.std.specs.Prelude.{◌≡◌, ◌++◌, map, option_map, IfOk, OnOk};
ghost use Rattle.alloy_syntax.specs.View.{scope_view, command_view, paragraph_view};
ghost use Rattle.order_lib.specs.Scopes as spec;

use alloy_lex::Place;
use alloy_syntax::tree::{Command, Entry, Name, Number, Open, Paragraph, Scope};
use std::alloc::{AllocError, Global};

/// Whether one of the names is this text.
pub fn is_among(names: &[Name], text: &str) -> bool
    ensures { result ≡ spec.is_among names.now text.now }
{
    let mut rest = names;
    'each: while let [name, others @ ..] = rest {
        if name.text.text() == text {
            return true;
        }
        rest = others;
    }
    false
}

fn copied(alloc: Global, name: &Name) -> Result<Name, AllocError>
    ensures { IfOk result (λ n. n ≡ name.now) }
{
    Ok(Name {
        text: name.text.copy(alloc)?,
        place: name.place,
    })
}

// ---- the signatures that are ordered

// Adds a signature, where it isn't there yet.
fn add_signature(alloc: Global, names: &mut Vec<Name>, name: &Name) -> Result<(), AllocError>
    ensures { OnOk result (names.new.items ≡ spec.with_signature names.old.items name.now) }
{
    if !is_among(names, name.text.text()) {
        names.push(copied(alloc, name)?)?;
    }
    Ok(())
}

/// The signatures that are ordered, each once.
pub fn ordered_in(alloc: Global, opens: &[Open]) -> Result<Vec<Name>, AllocError>
    ensures { IfOk result (λ names. names.items ≡ spec.ordered_in opens.now) }
{
    let mut names = Vec::new(alloc);
    for ordering in opens {
        add_signature(alloc, &mut names, &ordering.signature)?;
    }
    Ok(names)
}

// ---- the sizes that a scope lists

// What is listed, exact where the signature is ordered.
fn made_exact(alloc: Global, ordered: &[Name], entry: &Entry) -> Result<Entry, AllocError>
    ensures { IfOk result (λ e. e ≡ spec.made_exact ordered.now entry.now) }
{
    Ok(Entry {
        exactly: entry.exactly || is_among(ordered, entry.name.text.text()),
        number: entry.number,
        name: copied(alloc, &entry.name)?,
    })
}

fn all_exact(alloc: Global, ordered: &[Name], entries: &[Entry]) -> Result<Vec<Entry>, AllocError>
    ensures { IfOk result (λ all. all.items ≡ map (spec.made_exact ordered.now) entries.now) }
{
    let mut all = Vec::new(alloc);
    for entry in entries {
        all.push(made_exact(alloc, ordered, entry)?)?;
    }
    Ok(all)
}

// Whether something is listed for the signature of this name.
fn is_listed(entries: &[Entry], text: &str) -> bool
    ensures { result ≡ spec.is_listed entries.now text.now }
{
    let mut rest = entries;
    'each: while let [entry, others @ ..] = rest {
        if entry.name.text.text() == text {
            return true;
        }
        rest = others;
    }
    false
}

// Adds an exact number for a signature, where it isn't listed.
fn add_entry(
    alloc: Global,
    listed: &[Entry],
    number: Number,
    entries: &mut Vec<Entry>,
    name: &Name,
) -> Result<(), AllocError>
    ensures { OnOk result (entries.new.items ≡ spec.with_entry listed.now number entries.old.items name.now) }
{
    if !is_listed(listed, name.text.text()) {
        entries.push(Entry {
            exactly: true,
            number,
            name: copied(alloc, name)?,
        })?;
    }
    Ok(())
}

fn add_entries(
    alloc: Global,
    listed: &[Entry],
    number: Number,
    entries: &mut Vec<Entry>,
    names: &[Name],
) -> Result<(), AllocError>
    ensures { OnOk result (entries.new.items ≡ spec.with_entries listed.now number entries.old.items names.now) }
{
    for name in names {
        add_entry(alloc, listed, number, entries, name)?;
    }
    Ok(())
}

// What a scope with that default lists, with ordered signatures exact.
fn exact_entries(
    alloc: Global,
    ordered: &[Name],
    default: Option<Number>,
    listed: &[Entry],
) -> Result<Vec<Entry>, AllocError>
    ensures { IfOk result (λ all. all.items ≡ spec.exact_entries ordered.now default listed.now) }
{
    let mut entries = all_exact(alloc, ordered, listed)?;
    match default {
        None => Ok(entries),
        Some(number) => {
            add_entries(alloc, listed, number, &mut entries, ordered)?;
            Ok(entries)
        }
    }
}

// ---- scopes of commands

// The scope of a command that stands there.
fn exact_scope(
    alloc: Global,
    place: Place,
    ordered: &[Name],
    scope: &Option<Scope>,
) -> Result<Scope, AllocError>
    ensures { IfOk result (λ s. scope_view s ≡ spec.exact_scope place ordered.now (option_map scope_view scope.now)) }
{
    match scope {
        None => three_each(alloc, place, ordered),
        Some(given) => {
            let entries = exact_entries(alloc, ordered, given.default, &given.entries)?;
            Ok(Scope {
                default: given.default,
                entries,
            })
        }
    }
}

// The scope of a command that has none.
fn three_each(alloc: Global, place: Place, ordered: &[Name]) -> Result<Scope, AllocError>
    ensures { IfOk result (λ s. scope_view s ≡ spec.three_each place ordered.now) }
{
    let three = Some(Number { value: 3, place });
    let entries = exact_entries(alloc, ordered, three, &[])?;
    Ok(Scope {
        default: three,
        entries,
    })
}

fn exact_command(alloc: Global, ordered: &[Name], command: Command) -> Result<Command, AllocError>
    ensures { IfOk result (λ c. command_view c ≡ spec.with_exact ordered.now (command_view command)) }
{
    let Command {
        kind,
        place,
        target,
        scope,
        expected,
    } = command;
    let exact = exact_scope(alloc, place, ordered, &scope)?;
    Ok(Command {
        kind,
        place,
        target,
        scope: Some(exact),
        expected,
    })
}

/// A paragraph with ordered signatures exact, if it is a command.
pub fn with_exact(
    alloc: Global,
    ordered: &[Name],
    paragraph: Paragraph,
) -> Result<Paragraph, AllocError>
    ensures { IfOk result (λ p. paragraph_view p ≡ spec.with_exact ordered.now (paragraph_view paragraph)) }
{
    match paragraph {
        Paragraph::Command(command) => {
            Ok(Paragraph::Command(exact_command(alloc, ordered, command)?))
        }
        other => Ok(other),
    }
}
