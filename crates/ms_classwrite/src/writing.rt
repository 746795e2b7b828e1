ghost use Rattle.std.specs.Prelude.{◌≡◌, ◌++◌, Err, IfOk, OnOk, false, true};
ghost use Rattle.ms_pool.specs.Pools.{u2, u4};
ghost use Rattle.ms_classfile.specs.ClassFile.{IsClassFile};
ghost use Rattle.ms_classwrite.specs.declared.refusal.WriteRefusal.TheVariants.{TooMany};
ghost use Rattle.ms_classwrite.specs.Layout.{has_too_many, is_too_large, layout, layout_with, spelled_class, spelled_fields, spelled_methods, spelled_start};
ghost use Rattle.ms_classwrite.specs.Plans.{AreDifferent, AreLinked};
ghost use Rattle.ms_classwrite.specs.ReadBack.{IsReadable, class_of};

use crate::limits::{MAX_FILE, has_too_many};
use crate::lines::Lines;
use crate::parts::{class, fields, methods, pool};
use crate::pool::pool_of;
use crate::{ClassPlan, NoMemory, WriteRefusal};
use ms_pool::Out;
use std::alloc::Global;

/// The magic number and the versions.
fn header(out: &mut Out) -> Result<(), NoMemory>
    ensures { OnOk result (out.new ≡ out.old ++ (u4 0xCAFEBABE ++ u2 0 ++ u2 52)) }
{
    out.u4(0xCAFE_BABE)?;
    out.u2(0)?;
    out.u2(52)
}

#[tactic(auto, unfolding(crate::specs::Layout::spelled_start, crate::specs::Layout::has_too_many))]
fn start(out: &mut Out, lines: &Lines<'_>, plan: &ClassPlan) -> Result<(), NoMemory>
    requires { has_too_many lines.now plan.now ≡ false }
    ensures { OnOk result (out.new ≡ out.old ++ (spelled_start lines.now ++ spelled_class lines.now plan.now.name)) }
{
    header(out)?;
    pool(out, lines)?;
    class(out, lines, plan.name())
}

#[tactic(auto, unfolding(crate::specs::Layout::has_too_many))]
fn members(out: &mut Out, lines: &Lines<'_>, plan: &ClassPlan) -> Result<(), NoMemory>
    requires { has_too_many lines.now plan.now ≡ false }
    ensures { OnOk result (out.new ≡ out.old ++ (spelled_fields lines.now plan.now.fields ++ spelled_methods lines.now plan.now.methods ++ u2 0)) }
{
    fields(out, lines, plan.fields())?;
    methods(out, lines, plan.methods())?;
    out.u2(0)
}

/// All bytes of the file.
#[tactic(auto, unfolding(crate::specs::Layout::layout_with))]
fn file(alloc: Global, lines: &Lines<'_>, plan: &ClassPlan) -> Result<Vec<u8>, NoMemory>
    requires { has_too_many lines.now plan.now ≡ false }
    ensures { IfOk result (λ bytes. bytes.items ≡ layout_with lines.now plan.now) }
{
    let mut out = Out::new(alloc);
    start(&mut out, lines, plan)?;
    members(&mut out, lines, plan)?;
    Ok(out.into_bytes())
}

/// Writes the class file that the plan is (JVMS SE 8, chapter 4): of version 52.0, of a public class
/// directly below java/lang/Object, without interfaces and attributes. The plan's lines are the first
/// entries of its constant pool: no two of them are the same, and each number in one is that of a line of
/// the wanted kind. Behind them stand, where they aren't there yet and in the order in which the file
/// comes to them: the class's name and the class, java/lang/Object's, each field's name, descriptor,
/// the name ConstantValue and its int, each method's name, descriptor and the name Code.
///
/// A plan is refused where the pool would have more than 65,534 entries, there are more than 65,535 fields
/// or methods, a text or a code has more than 65,535 bytes, or the file more than a mebibyte. The bytes
/// take memory, as does what finds equal entries; that memory ran out has no cause in a clause.
pub fn write_class(alloc: Global, plan: &ClassPlan) -> Result<Vec<u8>, WriteRefusal>
    requires different { AreDifferent plan.now.lines }
    requires linked { AreLinked plan.now.lines }

    // The bytes are the plan's layout.
    ensures written { IfOk result (λ bytes. bytes.items ≡ layout plan.now) }

    // A plan that is too large is refused as such, and no other, unless memory runs out.
    ensures fits { OnOk result (is_too_large plan.now ≡ false) }
    ensures too_many { result ≡ Err TooMany → is_too_large plan.now ≡ true }

    // The bytes are the class file of the plan's class, where the plan can be read back.
    ensures read { IfOk result (λ bytes. IsReadable plan.now → IsClassFile bytes.items (class_of plan.now)) }
{
    plan.numbers_fit();
    let lines = pool_of(alloc, plan)?;
    if has_too_many(&lines, plan) {
        return Err(WriteRefusal::TooMany);
    }
    let bytes = file(alloc, &lines, plan)?;
    if bytes.len() > MAX_FILE {
        return Err(WriteRefusal::TooMany);
    }
    Ok(bytes)
}
