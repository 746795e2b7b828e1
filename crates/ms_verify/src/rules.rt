ghost use Rattle.std.specs.Prelude.{◌≡◌, ◌&&◌, drop, IfOk, length, map, is_none, option_map, reverse, slice_set};
ghost use Rattle.ms_linking.specs.Told.{sort_of, told};
ghost use Rattle.ms_typing.specs.Rules as rules;
ghost use Rattle.ms_machine.specs.Effects.{values_at};
ghost use Rattle.ms_verify.specs.Told.{profile_told, want_told};

use crate::kinds::is_reference;
use crate::line::{Code, Line, Want};
use crate::shape::Shape;
use ms_linking::{Instruction, Sort};
use ms_typing::{PlaceKind, VerifyKind};
use ms_words::{FieldType, Thrown};
use std::alloc::{AllocError, Global};

// WHAT MAY BE TAKEN

/// Whether a kind is that of a throwable that isn't initialised.
fn is_new(kind: PlaceKind) -> bool
    ensures { result ≡ rules.is_new kind }
{
    match kind {
        PlaceKind::New { .. } => true,
        _ => false,
    }
}

/// Whether a kind is one that may be taken.
fn meets(want: Want, kind: PlaceKind) -> bool
    ensures { result ≡ rules.meets (want_told want) kind }
{
    match (want, kind) {
        (Want::Anything, _) => true,
        (Want::AnInt, PlaceKind::Int) => true,
        (Want::AnArray, PlaceKind::Null | PlaceKind::Array) => true,
        (Want::AThrowable, PlaceKind::Null | PlaceKind::Thrown(_)) => true,
        (Want::AText, PlaceKind::Null | PlaceKind::Text) => true,
        (Want::AReference, _) => is_reference(kind),
        (Want::AReferenceOrNew, _) => is_reference(kind) || is_new(kind),
        (Want::ANew(class), PlaceKind::New { class: other, .. }) => class == other,
        _ => false,
    }
}

/// Whether kinds are ones that may be taken, the top of the stack first; there may be more.
#[tactic(auto, using(crate::proofs::Taking::one_meets, crate::proofs::Taking::none_there, crate::proofs::Taking::none_left))]
fn all_meet(wants: &[Want], kinds: &[PlaceKind]) -> bool
    ensures { result ≡ rules.all_meet (map want_told wants.now) kinds.now }
{
    for (i, want) in wants.iter().enumerate() {
        match kinds.get(i) {
            Some(kind) => {
                if !meets(*want, *kind) {
                    return false;
                }
            }
            None => return false,
        }
    }
    true
}

/// What is taken as one of a type.
fn want_of(field_type: FieldType) -> Want
    ensures { want_told result ≡ rules.want_of field_type }
{
    match field_type {
        FieldType::Int(_) => Want::AnInt,
        FieldType::IntArray => Want::AnArray,
    }
}

/// The kind of a value of a type.
pub(crate) fn kind_of(field_type: FieldType) -> PlaceKind
    ensures { result ≡ rules.kind_of field_type }
{
    match field_type {
        FieldType::Int(_) => PlaceKind::Int,
        FieldType::IntArray => PlaceKind::Array,
    }
}

/// What is taken from a local, or into one.
fn local_want(sort: Sort) -> Want
    ensures { want_told result ≡ rules.local_want (sort_of sort) }
{
    match sort {
        Sort::Int => Want::AnInt,
        Sort::Reference => Want::AReferenceOrNew,
    }
}

/// What is returned.
fn returned_want(sort: Sort) -> Want
    ensures { want_told result ≡ rules.returned_want (sort_of sort) }
{
    match sort {
        Sort::Int => Want::AnInt,
        Sort::Reference => Want::AnArray,
    }
}

// WHAT EACH INSTRUCTION TAKES

/// What a method takes with these parameters, the last one first.
fn arguments(alloc: Global, parameters: &[FieldType]) -> Result<Vec<Want>, AllocError>
    ensures { IfOk result (λ wants. map want_told wants.items ≡ reverse (map rules.want_of parameters.now)) }
{
    let mut wants = Vec::new(alloc);
    for parameter in parameters {
        wants.push(want_of(*parameter))?;
    }
    wants.reverse();
    Ok(wants)
}

/// What an instruction takes from the stack, the top first.
#[tactic(auto, using(crate::proofs::Taking::anything_told))]
pub(crate) fn takes(alloc: Global, instruction: &Instruction<'_>) -> Result<Vec<Want>, AllocError>
    ensures { IfOk result (λ wants. map want_told wants.items ≡ rules.takes (told instruction.now)) }
{
    match instruction {
        Instruction::Store(sort, _) => Ok(vec![in alloc; local_want(*sort)]?),
        Instruction::Shuffle { count, .. } => vec![in alloc; Want::Anything; *count],
        Instruction::Change(_)
        | Instruction::CompareZero(_)
        | Instruction::Switch(_)
        | Instruction::NewArray => Ok(vec![in alloc; Want::AnInt]?),
        Instruction::Combine(_) | Instruction::Divide(_) | Instruction::Compare(_) => {
            Ok(vec![in alloc; Want::AnInt, Want::AnInt]?)
        }
        Instruction::CompareReferences { .. } => {
            Ok(vec![in alloc; Want::AReference, Want::AReference]?)
        }
        Instruction::CompareNull { .. } => Ok(vec![in alloc; Want::AReference]?),
        Instruction::ReturnValue(sort) => Ok(vec![in alloc; returned_want(*sort)]?),
        Instruction::PutStatic(_, field_type) => Ok(vec![in alloc; want_of(*field_type)]?),
        Instruction::Invoke(_, signature) => arguments(alloc, signature.parameters()),
        Instruction::Construct {
            with_message: true,
            class,
        } => Ok(vec![in alloc; Want::AText, Want::ANew(*class)]?),
        Instruction::Construct {
            with_message: false,
            class,
        } => Ok(vec![in alloc; Want::ANew(*class)]?),
        Instruction::Throw => Ok(vec![in alloc; Want::AThrowable]?),
        Instruction::ArrayLength => Ok(vec![in alloc; Want::AnArray]?),
        Instruction::ArrayLoad => Ok(vec![in alloc; Want::AnInt, Want::AnArray]?),
        Instruction::ArrayStore => { Ok(vec![in alloc; Want::AnInt, Want::AnInt, Want::AnArray]?) }
        _ => Ok(Vec::new(alloc)),
    }
}

/// The local that an instruction names.
fn local_of(instruction: &Instruction<'_>) -> Option<u16>
    ensures { result ≡ rules.local_of (told instruction.now) }
{
    match instruction {
        Instruction::Load(_, local)
        | Instruction::Store(_, local)
        | Instruction::Increment(local, _) => Some(*local),
        _ => None,
    }
}

/// What it takes from that local, if it reads it.
fn reads(instruction: &Instruction<'_>) -> Option<Want>
    ensures { option_map want_told result ≡ rules.reads (told instruction.now) }
{
    match instruction {
        Instruction::Load(sort, _) => Some(local_want(*sort)),
        Instruction::Increment(_, _) => Some(Want::AnInt),
        _ => None,
    }
}

// WHAT EACH INSTRUCTION LEAVES

/// The kind of a place; one that isn't there is unset.
#[tactic(auto, using(crate::proofs::Taking::kind_there, crate::proofs::Taking::no_kind))]
fn kind_at(kinds: &[PlaceKind], place: usize) -> PlaceKind
    ensures { result ≡ rules.kind_at kinds.now place }
{
    match kinds.get(place) {
        Some(kind) => *kind,
        None => PlaceKind::Unset,
    }
}

/// The kinds of these places, or none where one isn't there.
#[tactic(auto, using(crate::proofs::Taking::none_picked, crate::proofs::Taking::one_picked, crate::proofs::Taking::one_missing, crate::proofs::Taking::all_picked))]
fn picked(
    alloc: Global,
    kinds: &[PlaceKind],
    places: &[usize],
) -> Result<Vec<PlaceKind>, AllocError>
    ensures { IfOk result (λ picked. picked.items ≡ rules.or_none (values_at kinds.now places.now)) }
{
    let mut picked = Vec::new(alloc);
    for place in places {
        match kinds.get(*place) {
            Some(kind) => picked.push(*kind)?,
            None => return Ok(Vec::new(alloc)),
        }
    }
    Ok(picked)
}

/// What an instruction at this offset puts on the stack, the top first.
fn gives(
    alloc: Global,
    at: u16,
    instruction: &Instruction<'_>,
    shape: &Shape,
) -> Result<Vec<PlaceKind>, AllocError>
    ensures { IfOk result (λ kinds. kinds.items ≡ rules.gives at (told instruction.now) shape.now) }
{
    match instruction {
        Instruction::Push(_)
        | Instruction::Change(_)
        | Instruction::Combine(_)
        | Instruction::Divide(_)
        | Instruction::ArrayLength
        | Instruction::ArrayLoad => Ok(vec![in alloc; PlaceKind::Int]?),
        Instruction::PushNull => Ok(vec![in alloc; PlaceKind::Null]?),
        Instruction::PushText(_) => Ok(vec![in alloc; PlaceKind::Text]?),
        Instruction::Load(_, local) => {
            Ok(vec![in alloc; kind_at(shape.locals(), usize::from(*local))]?)
        }
        Instruction::Shuffle { places, .. } => picked(alloc, shape.stack(), places),
        Instruction::GetStatic(_, field_type, _) => Ok(vec![in alloc; kind_of(*field_type)]?),
        Instruction::Invoke(_, signature) => match signature.result() {
            Some(field_type) => Ok(vec![in alloc; kind_of(field_type)]?),
            None => Ok(Vec::new(alloc)),
        },
        Instruction::New(class) => Ok(vec![in alloc;
            PlaceKind::New {
                offset: at,
                class: *class,
            },
        ]?),
        Instruction::NewArray => Ok(vec![in alloc; PlaceKind::Array]?),
        _ => Ok(Vec::new(alloc)),
    }
}

/// Whether it is the kind of a throwable that was made at this offset and isn't initialised.
fn is_made_at(offset: u16, kind: PlaceKind) -> bool
    ensures { result ≡ rules.is_made_at offset kind }
{
    match kind {
        PlaceKind::New { offset: other, .. } => other == offset,
        _ => false,
    }
}

/// A local that holds one that was made at this offset is unset.
fn unset(offset: u16, kind: PlaceKind) -> PlaceKind
    ensures { result ≡ rules.unset offset kind }
{
    if is_made_at(offset, kind) {
        return PlaceKind::Unset;
    }
    kind
}

/// The class of a throwable that isn't initialised.
fn class_of(kind: PlaceKind) -> Thrown
    ensures { result ≡ rules.class_of kind }
{
    match kind {
        PlaceKind::New { class, .. } => class,
        _ => Thrown::Throwable,
    }
}

/// The offset where it was made.
fn offset_of(kind: PlaceKind) -> u16
    ensures { result ≡ rules.offset_of kind }
{
    match kind {
        PlaceKind::New { offset, .. } => offset,
        _ => 0,
    }
}

/// What was made at this offset is initialised.
fn initialised(offset: u16, kind: PlaceKind) -> PlaceKind
    ensures { result ≡ rules.initialised offset kind }
{
    if is_made_at(offset, kind) {
        return PlaceKind::Thrown(class_of(kind));
    }
    kind
}

/// Where the throwable was made that a constructor initialises, which stands below its message.
fn made_at(with_message: bool, shape: &Shape) -> u16
    ensures { result ≡ rules.made_at with_message shape.now }
{
    let place = if with_message { 1 } else { 0 };
    offset_of(kind_at(shape.stack(), place))
}

/// These kinds, where what was made at an offset is unset.
fn all_unset(alloc: Global, offset: u16, kinds: &[PlaceKind]) -> Result<Vec<PlaceKind>, AllocError>
    ensures { IfOk result (λ left. left.items ≡ map (rules.unset offset) kinds.now) }
{
    let mut left = Vec::new(alloc);
    for kind in kinds {
        left.push(unset(offset, *kind))?;
    }
    Ok(left)
}

/// These kinds, where what was made at an offset is initialised.
fn all_initialised(
    alloc: Global,
    offset: u16,
    kinds: &[PlaceKind],
) -> Result<Vec<PlaceKind>, AllocError>
    ensures { IfOk result (λ left. left.items ≡ map (rules.initialised offset) kinds.now) }
{
    let mut left = Vec::new(alloc);
    for kind in kinds {
        left.push(initialised(offset, *kind))?;
    }
    Ok(left)
}

/// The locals with a kind at a place, where that is one of them.
fn stored(
    alloc: Global,
    locals: &[PlaceKind],
    local: u16,
    kind: PlaceKind,
) -> Result<Vec<PlaceKind>, AllocError>
    ensures { IfOk result (λ left. left.items ≡ slice_set locals.now local kind) }
{
    let mut left = Vec::from_slice(alloc, locals)?;
    let place = usize::from(local);
    if place < left.len() {
        left[place] = kind;
    }
    Ok(left)
}

/// The locals that an instruction at this offset leaves.
fn locals_after(
    alloc: Global,
    at: u16,
    instruction: &Instruction<'_>,
    shape: &Shape,
) -> Result<Vec<PlaceKind>, AllocError>
    ensures { IfOk result (λ locals. locals.items ≡ rules.locals_after at (told instruction.now) shape.now) }
{
    match instruction {
        Instruction::Store(_, local) => {
            stored(alloc, shape.locals(), *local, kind_at(shape.stack(), 0))
        }
        Instruction::New(_) => all_unset(alloc, at, shape.locals()),
        Instruction::Construct { with_message, .. } => {
            all_initialised(alloc, made_at(*with_message, shape), shape.locals())
        }
        _ => Vec::from_slice(alloc, shape.locals()),
    }
}

/// The places below the first of a stack.
fn below(stack: &[PlaceKind], count: usize) -> &[PlaceKind]
    ensures { result.now ≡ drop count stack.now }
{
    stack.get(count..).unwrap_or(&[])
}

/// The stack that an instruction with these operands leaves below what it gives.
fn rest_after(alloc: Global, line: &Line<'_>, shape: &Shape) -> Result<Vec<PlaceKind>, AllocError>
    requires { map want_told line.now.takes.items ≡ rules.takes (told line.now.instruction) }
    ensures { IfOk result (λ stack. stack.items ≡ rules.rest_after (told line.now.instruction) shape.now) }
{
    match line.instruction {
        Instruction::Construct { with_message, .. } => {
            let count = if with_message { 2 } else { 1 };
            all_initialised(
                alloc,
                made_at(with_message, shape),
                below(shape.stack(), count),
            )
        }
        _ => Vec::from_slice(alloc, below(shape.stack(), line.takes.len())),
    }
}

/// What an instruction at this offset leaves.
pub(crate) fn after(
    alloc: Global,
    at: u16,
    line: &Line<'_>,
    shape: &Shape,
) -> Result<Shape, AllocError>
    requires { map want_told line.now.takes.items ≡ rules.takes (told line.now.instruction) }
    ensures { IfOk result (λ left. left ≡ rules.after at (told line.now.instruction) shape.now) }
{
    let locals = locals_after(alloc, at, &line.instruction, shape)?;
    let mut stack = gives(alloc, at, &line.instruction, shape)?;
    let rest = rest_after(alloc, line, shape)?;
    stack.extend_from_slice(&rest)?;
    Ok(Shape::new(locals, stack))
}

/// Whether an instruction may go on to the next one.
pub(crate) fn goes_on(instruction: &Instruction<'_>) -> bool
    ensures { result ≡ rules.goes_on (told instruction.now) }
{
    match instruction {
        Instruction::Goto
        | Instruction::Switch(_)
        | Instruction::ReturnValue(_)
        | Instruction::ReturnVoid
        | Instruction::Throw => false,
        _ => true,
    }
}

// WHAT MAY BE WRONG

/// Whether there are as many operands as the instruction takes, and no more places than the method has,
/// before it and after it.
fn has_depth(code: &Code<'_>, at: u16, line: &Line<'_>, shape: &Shape, left: &Shape) -> bool
    requires takes { map want_told line.now.takes.items ≡ rules.takes (told line.now.instruction) }
    requires left { left.now ≡ rules.after at (told line.now.instruction) shape.now }
    ensures { result ≡ rules.has_depth (profile_told code.now) at (told line.now.instruction) shape.now }
{
    let most = usize::from(code.max_stack);
    line.takes.len() <= shape.depth() && shape.depth() <= most && left.depth() <= most
}

/// Whether a kind is known.
fn is_set(kind: PlaceKind) -> bool
    ensures { result ≡ rules.is_set kind }
{
    match kind {
        PlaceKind::Unset => false,
        _ => true,
    }
}

/// Whether the local of an instruction is one of the method's, and set where it is read.
fn has_local(code: &Code<'_>, instruction: &Instruction<'_>, shape: &Shape) -> bool
    ensures { result ≡ rules.has_local (profile_told code.now) (told instruction.now) shape.now }
{
    let Some(local) = local_of(instruction) else {
        return true;
    };
    if local >= code.max_locals {
        return false;
    }
    match reads(instruction) {
        Some(_) => is_set(kind_at(shape.locals(), usize::from(local))),
        None => true,
    }
}

/// Whether the local that it reads is of a kind that it takes.
fn local_meets(instruction: &Instruction<'_>, shape: &Shape) -> bool
    ensures { result ≡ rules.local_meets (rules.reads (told instruction.now)) (rules.local_of (told instruction.now)) shape.now }
{
    match (reads(instruction), local_of(instruction)) {
        (Some(want), Some(local)) => meets(want, kind_at(shape.locals(), usize::from(local))),
        _ => true,
    }
}

/// Whether none of these was made at this offset and isn't initialised.
fn none_made_at(offset: u16, stack: &[PlaceKind]) -> bool
    ensures { result ≡ rules.none_made_at offset stack.now }
{
    for kind in stack {
        if is_made_at(offset, *kind) {
            return false;
        }
    }
    true
}

/// Whether no throwable that it made before is still on the stack, if it makes one.
fn may_make(at: u16, instruction: &Instruction<'_>, shape: &Shape) -> bool
    ensures { result ≡ rules.may_make at (told instruction.now) shape.now }
{
    match instruction {
        Instruction::New(_) => none_made_at(at, shape.stack()),
        _ => true,
    }
}

/// Whether all that it reads is of a kind that it takes, and it may make what it makes.
fn has_kinds(at: u16, line: &Line<'_>, shape: &Shape) -> bool
    requires { map want_told line.now.takes.items ≡ rules.takes (told line.now.instruction) }
    ensures { result ≡ rules.has_kinds at (told line.now.instruction) shape.now }
{
    all_meet(&line.takes, shape.stack())
        && local_meets(&line.instruction, shape)
        && may_make(at, &line.instruction, shape)
}

/// Whether a return is that of a result.
fn returns_right(result_type: Option<FieldType>, instruction: &Instruction<'_>) -> bool
    ensures { result ≡ rules.returns_right result_type (told instruction.now) }
{
    match instruction {
        Instruction::ReturnValue(Sort::Int) => match result_type {
            Some(FieldType::Int(_)) => true,
            _ => false,
        },
        Instruction::ReturnValue(Sort::Reference) => match result_type {
            Some(FieldType::IntArray) => true,
            _ => false,
        },
        Instruction::ReturnVoid => result_type.is_none(),
        _ => true,
    }
}

/// The first fault of an instruction, where this is the shape before it, and that what it leaves.
pub(crate) fn fault_of(
    code: &Code<'_>,
    at: u16,
    line: &Line<'_>,
    shape: &Shape,
    left: &Shape,
) -> Option<VerifyKind>
    requires takes { map want_told line.now.takes.items ≡ rules.takes (told line.now.instruction) }
    requires left { left.now ≡ rules.after at (told line.now.instruction) shape.now }
    ensures { result ≡ rules.fault (profile_told code.now) at (told line.now.instruction) (is_none line.now.next) shape.now }
{
    if !has_depth(code, at, line, shape, left) {
        return Some(VerifyKind::Depth);
    }
    if !has_local(code, &line.instruction, shape) {
        return Some(VerifyKind::Local);
    }
    if !has_kinds(at, line, shape) {
        return Some(VerifyKind::Kind);
    }
    if !returns_right(code.result, &line.instruction) {
        return Some(VerifyKind::Return);
    }
    if goes_on(&line.instruction) && line.next.is_none() {
        return Some(VerifyKind::FallOff);
    }
    None
}
