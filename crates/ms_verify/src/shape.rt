ghost use Rattle.std.specs.Prelude.{◌≡◌, [], ◌∷◌, IfOk, IsSome, Some, false, length, not};
ghost use Rattle.ms_typing.specs.Kinds as rules;
ghost use Rattle.ms_typing.specs.Rules.{kind_at};
ghost use Rattle.ms_typing.specs.declared.kind.PlaceKind.TheVariants as kinds;
ghost use Rattle.ms_verify.specs.Told.{waiting};

use crate::kinds::join_into;
use ms_typing::PlaceKind;
use ms_words::Thrown;
use std::alloc::{AllocError, Global};
use std::marker::Model;

/// The kinds of a frame's places: its locals, and its operand stack with the top first.
#[derive(Drop)]
pub struct Shape {
    locals: Vec<PlaceKind>,
    stack: Vec<PlaceKind>,
}

impl Model for Shape {
    ghost use Rattle.ms_typing.specs.Kinds.{Shape as Typed};

    ghost Value = { Typed };

    ghost view = { λ shape. record { locals = shape.locals.items; stack = shape.stack.items } };
}

impl Shape {
    /// The shape of these kinds.
    pub(crate) fn new(locals: Vec<PlaceKind>, stack: Vec<PlaceKind>) -> Shape
        ensures { result ≡ record { locals = locals.items; stack = stack.items } }
    {
        Shape { locals, stack }
    }

    /// The kinds of the locals.
    pub(crate) fn locals(&self) -> &[PlaceKind]
        ensures { result.now ≡ self.now.locals }
    {
        self.locals.as_slice()
    }

    /// The kinds of the operand stack, the top first.
    pub(crate) fn stack(&self) -> &[PlaceKind]
        ensures { result.now ≡ self.now.stack }
    {
        self.stack.as_slice()
    }

    /// How many places the operand stack has.
    pub(crate) fn depth(&self) -> usize
        ensures { result ≡ length self.now.stack }
    {
        self.stack.len()
    }

    /// A copy.
    pub(crate) fn copy(&self, alloc: Global) -> Result<Shape, AllocError>
        ensures { IfOk result (λ shape. shape ≡ self.now) }
    {
        Ok(Shape {
            locals: Vec::from_slice(alloc, &self.locals)?,
            stack: Vec::from_slice(alloc, &self.stack)?,
        })
    }

    /// What a handler gets of it: the locals, and a throwable of this class alone on the stack.
    pub(crate) fn caught(&self, alloc: Global, class: Thrown) -> Result<Shape, AllocError>
        ensures { IfOk result (λ shape. shape ≡ record { locals = self.now.locals; stack = kinds.Thrown class ∷ [] }) }
    {
        let mut stack = Vec::new(alloc);
        stack.push(PlaceKind::Thrown(class))?;
        Ok(Shape {
            locals: Vec::from_slice(alloc, &self.locals)?,
            stack,
        })
    }

    /// Joins another shape to this one, and answers whether that changed it.
    pub(crate) fn join(&mut self, other: &Shape) -> bool
        requires locals { length self.old.locals ≡ length other.now.locals }
        requires stack { length self.old.stack ≡ length other.now.stack }
        ensures joined { self.new ≡ rules.joined self.old other.now }
        ensures changed { result ≡ not (rules.same_shape (rules.joined self.old other.now) self.old) }
    {
        let locals = join_into(&mut self.locals, &other.locals);
        let stack = join_into(&mut self.stack, &other.stack);
        locals || stack
    }
}

/// What is known of an offset: its shape, once it is reached, and whether it waits.
#[derive(Drop)]
pub struct Slot {
    pub shape: Option<Shape>,
    pub waits: bool,
}

impl Slot {
    /// Whether it is reached and waits.
    pub(crate) fn is_waiting(&self) -> bool
        ensures { result ≡ waiting self.now }
    {
        self.waits && self.shape.is_some()
    }

    /// Waits no more, and gives a copy of its shape.
    pub(crate) fn settle(&mut self, alloc: Global) -> Result<Shape, AllocError>
        requires { IsSome self.old.shape }
        ensures copied { IfOk result (λ shape. self.old.shape ≡ Some shape) }
        ensures settled { IfOk result (λ shape. self.new ≡ record { shape = Some shape; waits = false }) }
        ensures shape { self.new.shape ≡ self.old.shape }
    {
        match &self.shape {
            None => unreachable!(),
            Some(shape) => {
                let copy = shape.copy(alloc)?;
                self.waits = false;
                Ok(copy)
            }
        }
    }
}
