ghost use Rattle.std.specs.Prelude.{◌≡◌, ◌<◌, ◌≤◌, All, IfOk, IfSome, MatchOption, None, Some, is_none, length, map, slice_set, take, true, ℕ};
ghost use Rattle.ms_program.specs.Views as views;
ghost use Rattle.ms_linking.specs.Told.{told};
ghost use Rattle.ms_typing.specs.Kinds as rules;
ghost use Rattle.ms_typing.specs.Rules as typing;
ghost use Rattle.ms_typing.specs.Verifier.{filled, Settled, Verifies, line_at, lowest, start, turn};
ghost use Rattle.ms_verify.specs.Told.{AllHave, HasOutcome, IsLow, IsLowest, RestsBelow, IsWhole, IsWholeCode, cells_of, line_lent, method_told, outcome_of, turned};

use crate::line::{Code, Fault, Line};
use crate::passing::{covers, pass_each, pass_handlers};
use crate::rules::{after, fault_of, kind_of};
use crate::shape::{Shape, Slot};
use ms_code::Handler;
use ms_typing::{PlaceKind, VerifyKind};
use ms_words::FieldType;
use std::alloc::{AllocError, Global};

/// The lowest offset that waits, where none below this one does.
fn first_waiting(slots: &[Slot], from: u16) -> Option<u16>
    requires short { length slots.now < 65536 }
    requires none { lowest (cells_of (take from slots.now)) ≡ None }
    ensures { MatchOption result (lowest (cells_of slots.now) ≡ None) (λ offset. IsLowest slots.now offset) }
{
    for i in usize::from(from)..slots.len() {
        if slots[i].is_waiting() {
            return Some(i as u16);
        }
    }
    None
}

/// Settles the lowest offset that waits, and gives a copy of its shape.
fn settle_at(alloc: Global, slots: &mut [Slot], at: u16) -> Result<Shape, AllocError>
    requires lowest { IsLowest slots.old at }
    ensures copied { IfOk result (λ shape. lowest (cells_of slots.old) ≡ Some (at, shape)) }
    ensures settled { IfOk result (λ shape. cells_of slots.new ≡ slice_set (cells_of slots.old) at (Settled shape)) }
    ensures sized { (count : ℕ) → AllHave count slots.old → AllHave count slots.new }
{
    slots[at as usize].settle(alloc)
}

/// An offset, if it waits and is below another, and else that one.
#[tactic(auto, using(crate::proofs::Leading::one_rests))]
fn lower(slots: &[Slot], offset: u16, low: u16) -> u16
    requires { offset < length slots.now }
    ensures low { result ≤ low }
    ensures rests { RestsBelow slots.now result offset }
{
    if offset >= low {
        return low;
    }
    if slots[offset as usize].is_waiting() {
        return offset;
    }
    low
}

/// The lowest of these offsets that waits, if one is below another, and else that one.
fn lowest_of(slots: &[Slot], offsets: &[u16], low: u16) -> u16
    requires { All (λ offset. offset < length slots.now) offsets.now }
    ensures low { result ≤ low }
    ensures rest { All (RestsBelow slots.now result) offsets.now }
{
    let mut lowest = low;
    for offset in offsets {
        lowest = lower(slots, *offset, lowest);
    }
    lowest
}

/// The same of the offset where a handler begins, if it covers an offset.
fn lower_caught(slots: &[Slot], handler: &Handler, at: u16, low: u16) -> u16
    requires { handler.now.target < length slots.now }
    ensures low { result ≤ low }
    ensures rests { views.covers at handler.now ≡ true → RestsBelow slots.now result handler.now.target }
{
    if covers(handler, at) {
        return lower(slots, handler.target, low);
    }
    low
}

/// The same of the offsets where handlers begin that cover an offset.
fn lowest_caught(slots: &[Slot], handlers: &[Handler], at: u16, low: u16) -> u16
    requires { All (λ handler. handler.target < length slots.now) handlers.now }
    ensures low { result ≤ low }
    ensures rest { All (λ handler. views.covers at handler ≡ true → RestsBelow slots.now result handler.target) handlers.now }
{
    let mut lowest = low;
    for handler in handlers {
        lowest = lower_caught(slots, handler, at, lowest);
    }
    lowest
}

impl<'a> Code<'a> {
    /// The instruction that starts at an offset.
    fn line(&self, at: u16) -> Option<&Line<'a>>
        requires within { at < length self.now.lines.items }
        requires whole { IsWholeCode self.now }
        ensures line { line_at (method_told self.now) at ≡ line_lent self.now.handlers.now at result }
        ensures whole { IfSome result (λ line. IsWhole (length self.now.lines.items) line.now) }
    {
        self.lines[at as usize].as_ref()
    }

    /// The lowest offset that waits of those to which the instruction at an offset leads, or the next one.
    fn lowest_led(&self, slots: &[Slot], at: u16) -> u16
        requires within { at < length self.now.lines.items }
        requires whole { IsWholeCode self.now }
        requires long { length slots.now ≡ length self.now.lines.items }
        ensures { IsLow (method_told self.now) slots.now at result }
    {
        match self.line(at) {
            Some(line) => {
                let low = lowest_of(slots, &line.successors, at + 1);
                lowest_caught(slots, self.handlers, at, low)
            }
            None => at,
        }
    }
}

/// Takes the lowest offset that waits: its rules are tested, and what it leaves is passed on.
fn take_turn(
    alloc: Global,
    code: &Code<'_>,
    slots: &mut [Slot],
    at: u16,
) -> Result<Option<Fault>, AllocError>
    requires whole { IsWholeCode code.now }
    requires long { length slots.old ≡ length code.now.lines.items }
    requires sized { AllHave code.now.max_locals slots.old }
    requires lowest { IsLowest slots.old at }
    ensures turned { IfOk result (λ r. (shape : rules.Shape) → lowest (cells_of slots.old) ≡ Some (at, shape) → turn (method_told code.now) (cells_of slots.old) (at, shape) ≡ turned r (cells_of slots.new)) }
    ensures sized { AllHave code.now.max_locals slots.new }
{
    let Some(line) = code.line(at) else {
        return Ok(Some(Fault {
            offset: at,
            kind: VerifyKind::FallOff,
        }));
    };
    let shape = settle_at(alloc, slots, at)?;
    let next = after(alloc, at, line, &shape)?;
    if let Some(kind) = fault_of(code, at, line, &shape, &next) {
        return Ok(Some(Fault { offset: at, kind }));
    }
    if let Some(offset) = pass_each(alloc, slots, &line.successors, &next)? {
        return Ok(Some(Fault {
            offset,
            kind: VerifyKind::Merge,
        }));
    }
    if let Some(offset) = pass_handlers(alloc, slots, code.handlers, at, &shape)? {
        return Ok(Some(Fault {
            offset,
            kind: VerifyKind::Merge,
        }));
    }
    Ok(None)
}

/// The kinds of the locals at the start of a method with these parameters.
fn first_locals(
    alloc: Global,
    max_locals: u16,
    parameters: &[FieldType],
) -> Result<Vec<PlaceKind>, AllocError>
    ensures { IfOk result (λ locals. locals.items ≡ filled max_locals (map typing.kind_of parameters.now)) }
{
    let mut locals = Vec::new(alloc);
    for i in 0..usize::from(max_locals) {
        let kind = match parameters.get(i) {
            Some(parameter) => kind_of(*parameter),
            None => PlaceKind::Unset,
        };
        locals.push(kind)?;
    }
    Ok(locals)
}

/// Offset 0 waits with the shape at the start, and no other offset is reached.
fn first_slots(alloc: Global, code: &Code<'_>) -> Result<Vec<Slot>, AllocError>
    requires { IsWholeCode code.now }
    ensures start { IfOk result (λ slots. cells_of slots.items ≡ start (method_told code.now)) }
    ensures length { IfOk result (λ slots. length slots.items ≡ length code.now.lines.items) }
    ensures sized { IfOk result (λ slots. AllHave code.now.max_locals slots.items) }
{
    let locals = first_locals(alloc, code.max_locals, &code.parameters)?;
    let mut slots = Vec::new(alloc);
    slots.push(Slot {
        shape: Some(Shape::new(locals, Vec::new(alloc))),
        waits: true,
    })?;
    for _ in 1..code.lines.len() {
        slots.push(Slot {
            shape: None,
            waits: false,
        })?;
    }
    Ok(slots)
}

/// Takes the lowest waiting offset, always, until one has a fault or none waits. It ends, since a turn
/// without a fault makes the shapes wider or leaves fewer that wait.
fn run(alloc: Global, code: &Code<'_>, slots: &mut [Slot]) -> Result<Option<Fault>, AllocError>
    requires whole { IsWholeCode code.now }
    requires long { length slots.old ≡ length code.now.lines.items }
    requires sized { AllHave code.now.max_locals slots.old }
    requires start { cells_of slots.old ≡ start (method_told code.now) }
    ensures { IfOk result (λ fault. Verifies (method_told code.now) (outcome_of fault (cells_of slots.new))) }
{
    let mut low = 0;
    while let Some(at) = first_waiting(slots, low) {
        if let Some(fault) = take_turn(alloc, code, slots, at)? {
            return Ok(Some(fault));
        }
        low = code.lowest_led(slots, at);
    }
    Ok(None)
}

/// What is wrong with a method first.
pub(crate) fn fault_in(alloc: Global, code: &Code<'_>) -> Result<Option<Fault>, AllocError>
    requires { IsWholeCode code.now }
    ensures { IfOk result (λ fault. HasOutcome (method_told code.now) fault) }
{
    let mut slots = first_slots(alloc, code)?;
    run(alloc, code, &mut slots)
}
