//! What a program says, as a short text.

use ms_code::{Instr, Operand};
use ms_program::{CatchPart, Initialiser, MethodBody, MethodId, Named, Program, View};
use ms_words::{EntryPart, Item, Kind};
use std::alloc::{AllocError, Global};
use std::fmt::Write;

/// How many offsets of each code are looked at, more than the longest one has.
const OFFSETS: u16 = 400;

/// How many targets and handlers of an instruction are looked at, more than any has.
const MOST: u32 = 100;

/// A text of these bytes.
fn text_of(bytes: &[u8]) -> &str {
    str::from_utf8(bytes).unwrap_or("?")
}

/// The name of a class without its package, where that is `java.lang`.
fn short(name: &[u8]) -> &str {
    let name = text_of(name);
    name.strip_prefix("java/lang/").unwrap_or(name)
}

/// Adds an item.
fn tell_item(text: &mut String, item: Item) -> Result<(), AllocError> {
    match item {
        Item::Entry => text.push_str("entry"),
        Item::At {
            class,
            method,
            offset,
        } => write!(text, "c{class}m{method}@{offset}"),
    }
}

/// Adds an item, by its offset alone where it is of the method of the other.
fn tell_near(text: &mut String, home: Item, item: Item) -> Result<(), AllocError> {
    match (home, item) {
        (
            Item::At { class, method, .. },
            Item::At {
                class: other_class,
                method: other_method,
                offset,
            },
        ) if class == other_class && method == other_method => write!(text, "{offset}"),
        _ => tell_item(text, item),
    }
}

/// Adds an item behind a word, where there is one.
fn tell_any(text: &mut String, word: &str, item: Option<Item>) -> Result<(), AllocError> {
    if let Some(item) = item {
        text.push_str(word)?;
        tell_item(text, item)?;
    }
    Ok(())
}

/// The letter of a kind.
fn letter(kind: Kind) -> &'static str {
    match kind {
        Kind::Z => "Z",
        Kind::B => "B",
        Kind::C => "C",
        Kind::S => "S",
        Kind::I => "I",
    }
}

/// Adds what the entry takes and returns.
fn tell_part(text: &mut String, part: &EntryPart) -> Result<(), AllocError> {
    text.push_str(" takes")?;
    for kind in part.kinds.get() {
        text.push_str(" ")?;
        text.push_str(letter(*kind))?;
    }
    text.push_str(" gives ")?;
    match part.result {
        Some(kind) => text.push_str(letter(kind)),
        None => text.push_str("nothing"),
    }
}

/// Adds an instruction, without its number of the pool and its targets.
fn tell_instr(text: &mut String, instr: &Instr) -> Result<(), AllocError> {
    let op = instr.op;
    write!(text, " {op}")?;
    if instr.wide {
        text.push_str(" wide")?;
    }
    match &instr.operand {
        Operand::Word(word) => write!(text, " word {word}")?,
        Operand::Local(index) => write!(text, " local {index}")?,
        Operand::Increment { index, by } => write!(text, " local {index} by {by}")?,
        Operand::Cases(switch) => {
            text.push_str(" keys")?;
            for case in switch.cases() {
                let key = case.key;
                write!(text, " {key}")?;
            }
        }
        Operand::Nothing | Operand::Pool(_) | Operand::Target(_) => (),
    }
    Ok(())
}

/// Adds what a number of the pool names.
fn tell_named(text: &mut String, named: &Named<'_>) -> Result<(), AllocError> {
    text.push_str(" names ")?;
    match named {
        Named::Word(word) => write!(text, "{word}"),
        Named::Text(bytes) => {
            let said = text_of(bytes);
            write!(text, "text {said}")
        }
        Named::Throwable(thrown) => text.push_str(short(thrown.class_name())),
        Named::Member { class, name, desc } => {
            let class = text_of(class);
            let name = text_of(name);
            let desc = text_of(desc);
            write!(text, "{class}.{name} {desc}")
        }
    }
}

/// Adds the targets, up to the first place where there is none, and what stands behind it.
fn tell_targets(text: &mut String, home: Item, view: &View<'_>) -> Result<(), AllocError> {
    for i in 0..MOST {
        if let Some(target) = view.target(i) {
            text.push_str(if i == 0 { " to " } else { " " })?;
            tell_near(text, home, target)?;
        }
    }
    Ok(())
}

/// Adds a handler.
fn tell_handler(text: &mut String, home: Item, part: &CatchPart) -> Result<(), AllocError> {
    tell_near(text, home, part.handler)?;
    let caught = short(part.catches.class_name());
    write!(text, ":{caught}")
}

/// Adds the handlers.
fn tell_handlers(text: &mut String, home: Item, view: &View<'_>) -> Result<(), AllocError> {
    for i in 0..MOST {
        if let Some(part) = view.handler(i) {
            text.push_str(if i == 0 { " catch " } else { " " })?;
            tell_handler(text, home, &part)?;
        }
    }
    Ok(())
}

/// A word for an answer.
fn yes(answer: bool) -> &'static str {
    if answer { "yes" } else { "no" }
}

/// Adds what is known of the member.
fn tell_member(text: &mut String, view: &View<'_>) -> Result<(), AllocError> {
    let Some(member) = view.member() else {
        return Ok(());
    };
    let class = yes(member.class_present);
    let there = yes(member.member_present);
    write!(text, " member {class} {there}")?;
    match member.initial {
        Some(initial) => write!(text, " {initial}"),
        None => text.push_str(" -"),
    }
}

/// Adds whether there is an initialiser.
fn tell_initialiser(text: &mut String, view: &View<'_>) -> Result<(), AllocError> {
    match view.initialiser() {
        Some(Initialiser::Absent) => text.push_str(" init absent"),
        Some(Initialiser::Present) => text.push_str(" init present"),
        Some(Initialiser::Foreign) => text.push_str(" init foreign"),
        None => Ok(()),
    }
}

/// Adds a view. What it doesn't have isn't told.
fn tell_view(text: &mut String, home: Item, view: &View<'_>) -> Result<(), AllocError> {
    tell_near(text, home, home)?;
    if let Some(part) = view.entry_part() {
        tell_part(text, &part)?;
    }
    if let Some(instr) = view.instr() {
        tell_instr(text, instr)?;
    }
    if let Some(named) = view.named() {
        tell_named(text, &named)?;
    }
    if let Some(next) = view.successor() {
        text.push_str(" next ")?;
        tell_near(text, home, next)?;
    }
    tell_targets(text, home, view)?;
    tell_handlers(text, home, view)?;
    tell_member(text, view)?;
    tell_initialiser(text, view)?;
    tell_any(text, " first ", view.first_item())?;
    tell_any(text, " clinit ", view.initialiser_item())
}

/// The view of an item.
pub fn view_told(alloc: Global, program: &Program, item: Item) -> Result<String, AllocError> {
    let mut text = String::new(alloc);
    match program.view(item) {
        Some(view) => tell_view(&mut text, item, &view)?,
        None => text.push_str("none")?,
    }
    Ok(text)
}

/// Adds the name of a method, its descriptor, and what room its code needs.
fn tell_body(text: &mut String, body: &MethodBody<'_>) -> Result<(), AllocError> {
    let name = text_of(body.name);
    let desc = text_of(body.desc);
    let stack = body.max_stack;
    let locals = body.max_locals;
    write!(text, "{name} {desc} stack {stack} locals {locals}:")
}

/// Adds the views of the instructions of a method, in order of offset.
fn tell_views(
    text: &mut String,
    program: &Program,
    class: u16,
    method: u16,
) -> Result<(), AllocError> {
    for offset in 0..OFFSETS {
        let item = Item::At {
            class,
            method,
            offset,
        };
        if let Some(view) = program.view(item) {
            text.push_str(" ")?;
            tell_view(text, item, &view)?;
            text.push_str(";")?;
        }
    }
    Ok(())
}

/// Adds a method: its name and its instructions, or that it is foreign.
pub fn tell_method(
    text: &mut String,
    program: &Program,
    class: u16,
    method: u16,
) -> Result<(), AllocError> {
    if class >= program.classes() {
        return text.push_str("no class");
    }
    if method >= program.methods(class) {
        return text.push_str("no method");
    }
    match program.method_body(class, method) {
        Some(body) => tell_body(text, &body)?,
        None => text.push_str("foreign")?,
    }
    tell_views(text, program, class, method)
}

/// Adds a method's numbers.
fn tell_id(text: &mut String, id: MethodId) -> Result<(), AllocError> {
    let class = id.class;
    let method = id.method;
    write!(text, "c{class}m{method}")
}

/// Adds the numbers of a method, if there is one.
pub fn tell_ids(text: &mut String, id: Option<MethodId>) -> Result<(), AllocError> {
    match id {
        Some(id) => tell_id(text, id),
        None => text.push_str("none"),
    }
}

/// Adds the names of the classes, and the entry.
pub fn tell_state(text: &mut String, program: &Program) -> Result<(), AllocError> {
    for class in 0..program.classes() {
        let name = text_of(program.class_name(class));
        write!(text, "{name} ")?;
    }
    text.push_str("entry ")?;
    tell_ids(text, program.entry())
}

/// All that a program says but for the bytes of its files: its classes and entry, and each view.
pub fn program_told(alloc: Global, program: &Program) -> Result<String, AllocError> {
    let mut text = String::new(alloc);
    tell_state(&mut text, program)?;
    text.push_str("\n")?;
    text.push_str(view_told(alloc, program, Item::Entry)?.as_str())?;
    for class in 0..program.classes() {
        for method in 0..program.methods(class) {
            text.push_str("\n")?;
            tell_method(&mut text, program, class, method)?;
        }
    }
    Ok(text)
}

/// Adds a text that isn't the wanted one, with its number in the table.
pub fn compare(differing: &mut String, row: u16, text: &str, want: &str) -> Result<(), AllocError> {
    if text != want {
        write!(differing, "\nrow {row}: {text}\nwanted: {want}\n")?;
    }
    Ok(())
}
