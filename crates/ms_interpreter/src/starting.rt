ghost use Rattle.std.specs.Prelude.{◌≡◌, ◌<◌, ◌∷◌, [], IfOk, IsSome, List, Some, None, length, map, option_map};
ghost use Rattle.ms_linking.specs.Linked.{program_of};
ghost use Rattle.ms_machine.specs.Control as control;
ghost use Rattle.ms_machine.specs.Control.{enters};
ghost use Rattle.ms_machine.specs.Values.{Int};
ghost use Rattle.ms_program.specs.Views as views;
ghost use Rattle.ms_interpreter.specs.Leads.{below_of};
ghost use Rattle.ms_interpreter.specs.Seen.{Texts, frame_of, locals_of, memory_of};
ghost use Rattle.ms_interpreter.specs.Begun.{begins};

use crate::acting::initialiser_name;
use crate::arithmetic::Arithmetic;
use crate::finish::Finish;
use crate::frame::Frame;
use crate::leading::enter;
use crate::memory::Memory;
use crate::slot::Slot;
use crate::state::State;
use ms_program::{Initialiser, MethodId, Program};
use ms_words::{Item, NoMemory};
use std::alloc::Global;

/// How a run begins.
#[derive(Drop)]
pub enum Beginning<I: Copy + Drop> {
    /// In this state.
    In(State<I>),
    /// It ends at once.
    Over(Finish<I>),
}

/// The first instruction of a method.
fn first_of(id: MethodId) -> Item
    ensures { result ≡ views.first_of id.class id.method }
{
    Item::At {
        class: id.class,
        method: id.method,
        offset: 0,
    }
}

/// The frame of an entry alone, and memory in which its class alone is started.
fn entered<I: Copy + Drop>(
    alloc: Global,
    entry: MethodId,
    locals: Vec<Option<Slot<I>>>,
) -> Result<State<I>, NoMemory>
    ensures top { IfOk result (λ state. state.top ≡ record { at = views.first_of entry.class entry.method; locals = locals.items; stack = []; initialises = None }) }
    ensures below { IfOk result (λ state. state.below.items ≡ []) }
    ensures memory { IfOk result (λ state. state.memory ≡ record { statics = []; started = entry.class ∷ []; arrays = []; throwables = 0 }) }
{
    let mut memory = Memory::new(alloc);
    memory.start(entry.class)?;
    let frame = Frame::new(alloc, first_of(entry), locals, None);
    Ok(State::new(alloc, frame, memory))
}

/// A run begins with the initialiser of a class, whose first instruction this is, and then is in this state.
fn begin_above<A: Arithmetic>(
    alloc: Global,
    item: Option<Item>,
    class: u16,
    state: State<A::Int>,
) -> Result<Beginning<A::Int>, NoMemory>
    ensures { IfOk result (λ start. (f : A.Int → A.V) (texts : Texts) → enters item [] (Some class) (frame_of f texts state.top) (below_of f texts state) (memory_of f texts state.memory) ≡ begins f texts start) }
{
    let Some(item) = item else {
        return Ok(Beginning::Over(Finish::Stuck));
    };
    let mut state = state;
    match enter::<A>(alloc, item, Vec::new(alloc), Some(class), &mut state)? {
        Some(finish) => Ok(Beginning::Over(finish)),
        None => Ok(Beginning::In(state)),
    }
}

/// How the run of an entry begins whose locals hold its parameters: its class is started, and the initialiser of that
/// runs first (JVMS SE 8, section 5.5).
pub fn start<A: Arithmetic>(
    alloc: Global,
    program: &Program,
    entry: MethodId,
    locals: Vec<Option<Slot<A::Int>>>,
) -> Result<Beginning<A::Int>, NoMemory>
    requires class { entry.class < length program.now.classes }
    requires entry { IsSome (program_of (record program.now { entry = Some entry })) }
    ensures { IfOk result (λ start. (f : A.Int → A.V) (texts : Texts) (parameters : List A.V) → locals_of f texts locals.items ≡ map (λ a. Some (Int a)) parameters
        → option_map (λ P. control.start P parameters) (program_of (record program.now { entry = Some entry })) ≡ Some (begins f texts start)) }
{
    let state = entered(alloc, entry, locals)?;
    match program.initialiser(entry.class) {
        Initialiser::Absent => Ok(Beginning::In(state)),
        Initialiser::Present => {
            let item = program.initialiser_item(entry.class);
            begin_above::<A>(alloc, item, entry.class, state)
        }
        Initialiser::Foreign => {
            let name = initialiser_name(alloc, program.class_name(entry.class))?;
            Ok(Beginning::Over(Finish::Missing(name)))
        }
    }
}
