ghost use Rattle.std.specs.Prelude.{◌≡◌, ◌∷◌, [], Some, None, IfOk, IsSome, OnOk, is_some, option_and_then, option_map, map, slice_get};
ghost use Rattle.ms_linking.specs.Linked.{handler_of, views_of};
ghost use Rattle.ms_machine.specs.Control as control;
ghost use Rattle.ms_machine.specs.Control.{Ends, catching, enters, goes_on, onto, returned_with, returns, viewed};
ghost use Rattle.ms_interpreter.specs.declared.lead.Lead.TheVariants as lead;
ghost use Rattle.ms_interpreter.specs.Doing.{end_of};
ghost use Rattle.ms_interpreter.specs.Leads.{Leads, below_of, done_of, finish_of};
ghost use Rattle.ms_interpreter.specs.Seen.{Texts, frame_of, locals_of, memory_of, value_of, values_of};

use crate::arithmetic::Arithmetic;
use crate::did::Stop;
use crate::finish::Finish;
use crate::frame::Frame;
use crate::lead::Lead;
use crate::slot::Slot;
use crate::state::State;
use ms_linking::instruction_of;
use ms_program::{Program, View};
use ms_words::{Item, NoMemory, Thrown};
use std::alloc::Global;
use std::mem;

/// The most frames that wait below another.
const MOST_BELOW: usize = 255;

// VIEWS

/// Whether the machine sees an instruction at an item.
fn is_seen(alloc: Global, program: &Program, item: Item) -> Result<bool, NoMemory>
    ensures { IfOk result (λ is. is ≡ is_some (views_of program.now item)) }
{
    let Some(view) = program.view(item) else {
        return Ok(false);
    };
    let instruction = instruction_of(alloc, program, &view)?;
    Ok(instruction.is_some())
}

/// The next instruction behind one.
fn next_of(program: &Program, item: Item) -> Option<Item>
    requires { IsSome (views_of program.now item) }
    ensures { option_and_then (λ view. view.next) (views_of program.now item) ≡ result }
{
    program.view(item)?.successor()
}

/// The first instruction of the method that an instruction calls.
fn callee_of(program: &Program, item: Item) -> Option<Item>
    requires { IsSome (views_of program.now item) }
    ensures { option_and_then (λ view. view.callee) (views_of program.now item) ≡ result }
{
    program.view(item)?.first_item()
}

/// The first instruction of the initialiser of the class whose member an instruction names.
fn initialiser_of(program: &Program, item: Item) -> Option<Item>
    requires { IsSome (views_of program.now item) }
    ensures { option_and_then (λ view. view.initialiser_first) (views_of program.now item) ≡ result }
{
    program.view(item)?.initialiser_item()
}

/// The target at this place of an instruction. None has so many targets that its place is no `u32`.
fn target_of(program: &Program, item: Item, place: usize) -> Result<Option<Item>, NoMemory>
    requires { IsSome (views_of program.now item) }
    ensures { IfOk result (λ target. option_and_then (λ view. slice_get view.targets place) (views_of program.now item) ≡ target) }
{
    let Some(view) = program.view(item) else {
        return Ok(None);
    };
    let Ok(place) = u32::try_from(place) else {
        return Err(NoMemory);
    };
    Ok(view.target(place))
}

/// The first of the handlers that cover an instruction which catches a class. None has so many that their number is no
/// `u32`.
fn handler_in(view: &View<'_>, class: Thrown) -> Result<Option<Item>, NoMemory>
    ensures { IfOk result (λ found. catching (map handler_of view.now.handlers) class ≡ found) }
{
    for i in 0..u32::MAX {
        let Some(part) = view.handler(i) else {
            return Ok(None);
        };
        if class.is_a(part.catches) {
            return Ok(Some(part.handler));
        }
    }
    Err(NoMemory)
}

/// The same by the item of the instruction.
fn handler_at(program: &Program, item: Item, class: Thrown) -> Result<Option<Item>, NoMemory>
    requires { IsSome (views_of program.now item) }
    ensures { IfOk result (λ found. option_and_then (λ view. catching view.handlers class) (views_of program.now item) ≡ found) }
{
    let Some(view) = program.view(item) else {
        return Ok(None);
    };
    handler_in(&view, class)
}

// GOING ON

/// The top frame goes on at an item.
fn go_on<A: Arithmetic>(item: Option<Item>, state: &mut State<A::Int>) -> Option<Finish<A::Int>>
    ensures { (f : A.Int → A.V) (texts : Texts) → goes_on item (frame_of f texts state.old.top) (below_of f texts state.old) (memory_of f texts state.old.memory) ≡ done_of f texts result state.new }
{
    let Some(item) = item else {
        return Some(Finish::Stuck);
    };
    state.top.go_to(item);
    None
}

/// The top frame goes on at the next instruction.
fn next<A: Arithmetic>(program: &Program, state: &mut State<A::Int>) -> Option<Finish<A::Int>>
    requires { IsSome (views_of program.now state.old.top.at) }
    ensures { (f : A.Int → A.V) (texts : Texts) → Leads f texts (views_of program.now) lead.Next state.old result state.new }
{
    let item = next_of(program, state.top.at());
    go_on::<A>(item, state)
}

/// The top frame goes on at the target at this place.
fn jump<A: Arithmetic>(
    program: &Program,
    target: usize,
    state: &mut State<A::Int>,
) -> Result<Option<Finish<A::Int>>, NoMemory>
    requires { IsSome (views_of program.now state.old.top.at) }
    ensures { IfOk result (λ finish. (f : A.Int → A.V) (texts : Texts) → Leads f texts (views_of program.now) (lead.Jumps target) state.old finish state.new) }
{
    let item = target_of(program, state.top.at(), target)?;
    Ok(go_on::<A>(item, state))
}

/// A new frame stands above, unless as many stand as may.
pub(crate) fn enter<A: Arithmetic>(
    alloc: Global,
    item: Item,
    locals: Vec<Option<Slot<A::Int>>>,
    initialises: Option<u16>,
    state: &mut State<A::Int>,
) -> Result<Option<Finish<A::Int>>, NoMemory>
    ensures { IfOk result (λ finish. (f : A.Int → A.V) (texts : Texts) → enters (Some item) (locals_of f texts locals.items) initialises (frame_of f texts state.old.top) (below_of f texts state.old) (memory_of f texts state.old.memory) ≡ done_of f texts finish state.new) }
{
    if state.below.len() >= MOST_BELOW {
        return Ok(Some(Finish::Deep));
    }
    let caller = mem::replace(&mut state.top, Frame::new(alloc, item, locals, initialises));
    state.below.push(caller)?;
    Ok(None)
}

/// Calls the method, with so many arguments from the stack.
fn call<A: Arithmetic>(
    alloc: Global,
    program: &Program,
    count: usize,
    state: &mut State<A::Int>,
) -> Result<Option<Finish<A::Int>>, NoMemory>
    requires { IsSome (views_of program.now state.old.top.at) }
    ensures { IfOk result (λ finish. (f : A.Int → A.V) (texts : Texts) → Leads f texts (views_of program.now) (lead.Calls count) state.old finish state.new) }
{
    let Some(item) = callee_of(program, state.top.at()) else {
        return Ok(Some(Finish::Stuck));
    };
    let locals = state.top.take_arguments(alloc, count)?;
    enter::<A>(alloc, item, locals, None, state)
}

/// Runs the initialiser of a class.
fn initialise<A: Arithmetic>(
    alloc: Global,
    program: &Program,
    class: u16,
    state: &mut State<A::Int>,
) -> Result<Option<Finish<A::Int>>, NoMemory>
    requires { IsSome (views_of program.now state.old.top.at) }
    ensures { IfOk result (λ finish. (f : A.Int → A.V) (texts : Texts) → Leads f texts (views_of program.now) (lead.Initialises class) state.old finish state.new) }
{
    let Some(item) = initialiser_of(program, state.top.at()) else {
        return Ok(Some(Finish::Stuck));
    };
    enter::<A>(alloc, item, Vec::new(alloc), Some(class), state)
}

// RETURNING

/// What an entry returned: an int or nothing.
fn returned<A: Arithmetic>(slot: Option<Slot<A::Int>>) -> Finish<A::Int>
    ensures { (f : A.Int → A.V) (texts : Texts) → returned_with (option_map (value_of f texts) slot) ≡ finish_of f result }
{
    match slot {
        None => Finish::ReturnedVoid,
        Some(Slot::Int(a)) => Finish::Returned(a),
        Some(_) => Finish::Stuck,
    }
}

/// Puts what was returned on the stack, if anything was.
fn put<A: Arithmetic>(slot: Option<Slot<A::Int>>, frame: &mut Frame<A::Int>) -> Result<(), NoMemory>
    ensures { OnOk result ((f : A.Int → A.V) (texts : Texts) → record (frame_of f texts frame.old) { stack = onto (option_map (value_of f texts) slot) (values_of f texts frame.old.stack) } ≡ frame_of f texts frame.new) }
{
    let Some(slot) = slot else {
        return Ok(());
    };
    frame.push(slot)
}

/// The caller, which is on top again, goes on behind its call.
fn resume<A: Arithmetic>(
    alloc: Global,
    program: &Program,
    slot: Option<Slot<A::Int>>,
    state: &mut State<A::Int>,
) -> Result<Option<Finish<A::Int>>, NoMemory>
    ensures { IfOk result (λ finish. (f : A.Int → A.V) (texts : Texts) → returns (views_of program.now) (option_map (value_of f texts) slot) (memory_of f texts state.old.memory) None (frame_of f texts state.old.top ∷ below_of f texts state.old) ≡ done_of f texts finish state.new) }
{
    let at = state.top.at();
    if !is_seen(alloc, program, at)? {
        return Ok(Some(Finish::Stuck));
    }
    put::<A>(slot, &mut state.top)?;
    Ok(go_on::<A>(next_of(program, at), state))
}

/// The top frame returns this, or nothing.
fn return_with<A: Arithmetic>(
    alloc: Global,
    program: &Program,
    slot: Option<Slot<A::Int>>,
    state: &mut State<A::Int>,
) -> Result<Option<Finish<A::Int>>, NoMemory>
    ensures { IfOk result (λ finish. (f : A.Int → A.V) (texts : Texts) → Leads f texts (views_of program.now) (lead.Returns slot) state.old finish state.new) }
{
    let initialises = state.top.initialises();
    let Some(caller) = state.below.pop() else {
        if initialises.is_some() {
            return Ok(Some(Finish::Stuck));
        }
        return Ok(Some(returned::<A>(slot)));
    };
    state.top = caller;
    if initialises.is_some() {
        return Ok(None);
    }
    resume::<A>(alloc, program, slot, state)
}

// THROWING

/// Looks for a handler of a throwable frame by frame.
fn throw<A: Arithmetic>(
    alloc: Global,
    program: &Program,
    number: u16,
    class: Thrown,
    state: &mut State<A::Int>,
) -> Result<Option<Finish<A::Int>>, NoMemory>
    requires { IsSome (views_of program.now state.old.top.at) }
    ensures { IfOk result (λ finish. (f : A.Int → A.V) (texts : Texts) → Leads f texts (views_of program.now) (lead.Raises number class) state.old finish state.new) }
{
    'frames: loop {
        if let Some(handler) = handler_at(program, state.top.at(), class)? {
            state.top.handle(handler, Slot::Throwable(number, class))?;
            return Ok(None);
        }
        if let Some(failed) = state.top.initialises() {
            return Ok(Some(Finish::InitFailed(failed)));
        }
        let Some(caller) = state.below.pop() else {
            return Ok(Some(Finish::Threw(class)));
        };
        state.top = caller;
        if !is_seen(alloc, program, state.top.at())? {
            return Ok(Some(Finish::Stuck));
        }
    }
}

/// The end that a stop is.
fn stopped<A: Arithmetic>(stop: Stop) -> Finish<A::Int>
    ensures { (f : A.Int → A.V) → finish_of f result ≡ end_of stop }
{
    match stop {
        Stop::Missing(name) => Finish::Missing(name),
        Stop::SymLength => Finish::SymLength,
        Stop::HeapFull => Finish::HeapFull,
        Stop::Stuck => Finish::Stuck,
    }
}

/// Where an instruction leads: the run goes on from the state, or ends. The machine sees the instruction where
/// the top frame stands.
pub(crate) fn lead<A: Arithmetic>(
    alloc: Global,
    program: &Program,
    state: &mut State<A::Int>,
    lead: Lead<A::Int>,
) -> Result<Option<Finish<A::Int>>, NoMemory>
    requires { IsSome (views_of program.now state.old.top.at) }
    ensures { IfOk result (λ finish. (f : A.Int → A.V) (texts : Texts) → Leads f texts (views_of program.now) lead state.old finish state.new) }
{
    match lead {
        Lead::Next => Ok(next::<A>(program, state)),
        Lead::Jumps(target) => jump::<A>(program, target, state),
        Lead::Calls(count) => call::<A>(alloc, program, count, state),
        Lead::Initialises(class) => initialise::<A>(alloc, program, class, state),
        Lead::Returns(slot) => return_with::<A>(alloc, program, slot, state),
        Lead::Raises(number, class) => throw::<A>(alloc, program, number, class, state),
        Lead::Stops(stop) => Ok(Some(stopped::<A>(stop))),
    }
}
