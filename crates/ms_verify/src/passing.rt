ghost use Rattle.std.specs.Prelude.{◌≡◌, ◌<◌, [], ◌∷◌, All, IfOk, IfSome, Some, None, false, length, map, true};
ghost use Rattle.ms_program.specs.Views as views;
ghost use Rattle.ms_typing.specs.Verifier.{Fails, Leaves, pass_all, received, to_handler};
ghost use Rattle.ms_typing.specs.declared.kind.VerifyKind.TheVariants.{Merge};
ghost use Rattle.ms_verify.specs.Told.{AllHave, cell_of, cells_of, handlers_at, turn_of};

use crate::shape::{Shape, Slot};
use ms_code::Handler;
use std::alloc::{AllocError, Global};

/// Passes a shape to a slot, and answers whether the stacks are of one depth.
fn receive(alloc: Global, slot: &mut Slot, shape: &Shape) -> Result<bool, AllocError>
    requires { IfSome slot.old.shape (λ held. length held.locals ≡ length shape.now.locals) }
    ensures received { IfOk result (λ b. b ≡ true → received (cell_of slot.old) shape.now ≡ Some (cell_of slot.new)) }
    ensures refused { IfOk result (λ b. b ≡ false → received (cell_of slot.old) shape.now ≡ None) }
    ensures sized { IfSome slot.new.shape (λ held. length held.locals ≡ length shape.now.locals) }
{
    if let Some(held) = &mut slot.shape {
        if held.depth() != shape.depth() {
            return Ok(false);
        }
        let changed = held.join(shape);
        slot.waits = slot.waits || changed;
        return Ok(true);
    }
    slot.shape = Some(shape.copy(alloc)?);
    slot.waits = true;
    Ok(true)
}

/// Passes a shape to an offset, and answers whether the stacks are of one depth.
fn pass(alloc: Global, slots: &mut [Slot], to: u16, shape: &Shape) -> Result<bool, AllocError>
    requires within { to < length slots.old }
    requires sized { AllHave (length shape.now.locals) slots.old }
    ensures passed { IfOk result (λ b. b ≡ true → pass_all (cells_of slots.old) ((to, shape.now) ∷ []) ≡ Leaves (cells_of slots.new)) }
    ensures refused { IfOk result (λ b. b ≡ false → pass_all (cells_of slots.old) ((to, shape.now) ∷ []) ≡ Fails to Merge) }
    ensures sized { AllHave (length shape.now.locals) slots.new }
{
    receive(alloc, &mut slots[to as usize], shape)
}

/// Passes a shape to some offsets, one after another, and answers the first where the depths differ.
pub(crate) fn pass_each(
    alloc: Global,
    slots: &mut [Slot],
    offsets: &[u16],
    shape: &Shape,
) -> Result<Option<u16>, AllocError>
    requires within { All (λ offset. offset < length slots.old) offsets.now }
    requires sized { AllHave (length shape.now.locals) slots.old }
    ensures passed { IfOk result (λ r. pass_all (cells_of slots.old) (map (λ offset. (offset, shape.now)) offsets.now) ≡ turn_of r (cells_of slots.new)) }
    ensures sized { AllHave (length shape.now.locals) slots.new }
{
    for offset in offsets {
        if !pass(alloc, slots, *offset, shape)? {
            return Ok(Some(*offset));
        }
    }
    Ok(None)
}

/// Whether a handler covers an offset.
pub(crate) fn covers(handler: &Handler, offset: u16) -> bool
    ensures { result ≡ views.covers offset handler.now }
{
    handler.start <= offset && u32::from(offset) < handler.end
}

/// Passes what the handlers get that cover an offset with this shape, in the order of the table, and
/// answers the first that begins where the depths differ.
pub(crate) fn pass_handlers(
    alloc: Global,
    slots: &mut [Slot],
    handlers: &[Handler],
    at: u16,
    shape: &Shape,
) -> Result<Option<u16>, AllocError>
    requires within { All (λ handler. handler.target < length slots.old) handlers.now }
    requires sized { AllHave (length shape.now.locals) slots.old }
    ensures passed { IfOk result (λ r. pass_all (cells_of slots.old) (map (to_handler shape.now) (handlers_at handlers.now at)) ≡ turn_of r (cells_of slots.new)) }
    ensures sized { AllHave (length shape.now.locals) slots.new }
{
    for handler in handlers {
        if covers(handler, at) {
            let caught = shape.caught(alloc, handler.catches)?;
            if !pass(alloc, slots, handler.target, &caught)? {
                return Ok(Some(handler.target));
            }
        }
    }
    Ok(None)
}
