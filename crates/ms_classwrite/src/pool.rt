//! The pool of a plan: its lines, and behind them what they lack.
ghost use Rattle.std.specs.Prelude.{◌≡◌, ◌<◌, fold, length, IfOk, OnOk, Err};
ghost use Rattle.ms_classwrite.specs.declared.refusal.WriteRefusal.TheVariants.{TooMany};
ghost use Rattle.ms_classwrite.specs.Layout.{pool_of, with_class, with_classes, with_constant, with_field, with_method};
ghost use Rattle.ms_classwrite.specs.Plans.{AreDifferent};

use crate::limits::MAX_ENTRIES;
use crate::lines::{Line, Lines};
use crate::{ClassPlan, NoMemory, PlanField, PlanMethod, PoolLine, WriteRefusal};
use std::alloc::Global;

/// The plan's own lines.
fn own_lines<'a>(alloc: Global, own: &'a [PoolLine]) -> Result<Lines<'a>, NoMemory>
    requires { AreDifferent own.now }
    ensures { IfOk result (λ lines. lines ≡ own.now) }
{
    let mut lines = Lines::new(alloc);
    for line in own {
        lines.add(Line::of(line))?;
    }
    Ok(lines)
}

/// Adds the name of a class, and the class. The name is refused where its number would be above the greatest.
#[tactic(auto, unfolding(crate::specs::Layout::with_class))]
fn add_class<'a>(lines: &mut Lines<'a>, name: &'a [u8]) -> Result<(), WriteRefusal>
    ensures ok { OnOk result (lines.new ≡ with_class lines.old name.now) }
    ensures many { result ≡ Err TooMany → 65534 < length (with_class lines.old name.now) }
{
    let place = lines.add(Line::Utf8(name))?;
    if place >= MAX_ENTRIES {
        return Err(WriteRefusal::TooMany);
    }
    lines.add(Line::Class {
        name: place as u16 + 1,
    })?;
    Ok(())
}

/// Adds what a constant needs.
#[tactic(auto, unfolding(crate::specs::Layout::with_constant))]
fn add_constant(lines: &mut Lines<'_>, constant: Option<i32>) -> Result<(), NoMemory>
    ensures { OnOk result (lines.new ≡ with_constant lines.old constant) }
{
    if let Some(int) = constant {
        lines.add(Line::Utf8(b"ConstantValue"))?;
        lines.add(Line::Integer(int))?;
    }
    Ok(())
}

/// Adds what a field needs.
#[tactic(auto, unfolding(crate::specs::Layout::with_field))]
fn add_field<'a>(lines: &mut Lines<'a>, field: &'a PlanField) -> Result<(), NoMemory>
    ensures { OnOk result (lines.new ≡ with_field lines.old field.now) }
{
    lines.add(Line::Utf8(field.name.get()))?;
    lines.add(Line::Utf8(field.desc.get()))?;
    add_constant(lines, field.constant)
}

/// Adds what a method needs.
#[tactic(auto, unfolding(crate::specs::Layout::with_method))]
fn add_method<'a>(lines: &mut Lines<'a>, method: &'a PlanMethod) -> Result<(), NoMemory>
    ensures { OnOk result (lines.new ≡ with_method lines.old method.now) }
{
    lines.add(Line::Utf8(method.name.get()))?;
    lines.add(Line::Utf8(method.desc.get()))?;
    lines.add(Line::Utf8(b"Code"))?;
    Ok(())
}

fn add_fields<'a>(lines: &mut Lines<'a>, fields: &'a [PlanField]) -> Result<(), NoMemory>
    ensures { OnOk result (lines.new ≡ fold with_field lines.old fields.now) }
{
    for field in fields {
        add_field(lines, field)?;
    }
    Ok(())
}

fn add_methods<'a>(lines: &mut Lines<'a>, methods: &'a [PlanMethod]) -> Result<(), NoMemory>
    ensures { OnOk result (lines.new ≡ fold with_method lines.old methods.now) }
{
    for method in methods {
        add_method(lines, method)?;
    }
    Ok(())
}

/// Adds the class of the plan and its superclass.
#[tactic(auto, using(crate::proofs::More::classes_above), unfolding(crate::specs::Layout::with_classes))]
fn add_classes<'a>(lines: &mut Lines<'a>, name: &'a [u8]) -> Result<(), WriteRefusal>
    ensures ok { OnOk result (lines.new ≡ with_classes lines.old name.now) }
    ensures many { result ≡ Err TooMany → 65534 < length (with_classes lines.old name.now) }
{
    add_class(lines, name)?;
    add_class(lines, b"java/lang/Object")
}

/// The pool of a plan. `TooMany` comes only where it has too many entries.
#[tactic(auto, using(crate::proofs::More::pool_above), unfolding(crate::specs::Layout::pool_of))]
pub fn pool_of<'a>(alloc: Global, plan: &'a ClassPlan) -> Result<Lines<'a>, WriteRefusal>
    requires { AreDifferent plan.now.lines }
    ensures ok { IfOk result (λ lines. lines ≡ pool_of plan.now) }
    ensures many { result ≡ Err TooMany → 65534 < length (pool_of plan.now) }
{
    let mut lines = own_lines(alloc, plan.lines())?;
    add_classes(&mut lines, plan.name())?;
    add_fields(&mut lines, plan.fields())?;
    add_methods(&mut lines, plan.methods())?;
    Ok(lines)
}
