ghost use Rattle.std.specs.Prelude.{◌≡◌, ◌+◌, ◌-◌, ◌<◌, length, slice_get, IfOk, OnOk, Some};
ghost use Rattle.ms_classfile.specs.Instructions.{depth_after};
ghost use Rattle.ms_machine.specs.Ints.{marks};
ghost use Rattle.ms_machine.specs.Instructions.{Combine, Load, OfInt, Push};
ghost use Rattle.ms_machine.specs.Values.{Int};
ghost use Rattle.ms_machine.specs.Effects.{effect};
ghost use Rattle.ms_jvm.specs.Programs.{instr_of};
ghost use Rattle.ms_jvm.specs.Turns.{IsReady, Leads, effect_of, here_with, locals_of, marked};

use crate::marked::MarkedInt;
use crate::stack::OperandStack;
use crate::turn::Turn;
use ms_classfile::Instruction;
use ms_words::{Bin, Input, NoMemory, apply2};

/// Executes an instruction of a method that runs on this input.
pub fn execute(
    instruction: Instruction,
    x: &Input,
    stack: &mut OperandStack,
) -> Result<Turn, NoMemory>
    requires { IsReady (length x.now.kinds) (length stack.old) instruction }
    ensures effect { IfOk result (λ turn. effect marks (instr_of instruction) (here_with (marked x.now) stack.old) ≡ effect_of turn (here_with (marked x.now) stack.new)) }
    ensures leads { IfOk result (Leads instruction) }
    ensures depth { IfOk result (λ turn. length stack.new ≡ depth_after (length stack.old) instruction) }
{
    match instruction {
        Instruction::IloadN(local) => load(local, x, stack),
        Instruction::Iload(local) => load(local, x, stack),
        Instruction::Iconst(word) => push(word, x, stack),
        Instruction::Bipush(word) => push(word, x, stack),
        Instruction::Iadd => combine(Bin::Add, x, stack),
        Instruction::Isub => combine(Bin::Sub, x, stack),
        Instruction::If(condition, far) => {
            let left = stack.pop();
            let right = constant(0);
            Ok(Turn::Branch {
                condition,
                left,
                right,
                far,
            })
        }
        Instruction::IfIcmp(condition, far) => {
            let right = stack.pop();
            let left = stack.pop();
            Ok(Turn::Branch {
                condition,
                left,
                right,
                far,
            })
        }
        Instruction::Ireturn => Ok(Turn::Return(stack.pop())),
    }
}

/// Puts a parameter on the stack.
fn load(local: u8, x: &Input, stack: &mut OperandStack) -> Result<Turn, NoMemory>
    requires { local < length x.now.kinds }
    ensures turn { IfOk result (λ turn. turn ≡ Turn.Next) }
    ensures effect { OnOk result (effect marks (Load OfInt local) (here_with (marked x.now) stack.old) ≡ effect_of Turn.Next (here_with (marked x.now) stack.new)) }
    ensures depth { OnOk result (length stack.new ≡ length stack.old + 1) }
{
    let int = parameter(x, usize::from(local));
    stack.push(int)?;
    Ok(Turn::Next)
}

/// A parameter, as an int that a parameter entered.
fn parameter(x: &Input, local: usize) -> MarkedInt
    requires { local < length x.now.kinds }
    ensures { slice_get (locals_of (marked x.now)) local ≡ Some (Some (Int result)) }
{
    MarkedInt {
        word: x.get(local),
        plain: false,
    }
}

/// An int of a constant.
fn constant(word: i32) -> MarkedInt
    ensures { result ≡ marks.constant word }
{
    MarkedInt { word, plain: true }
}

/// Puts a constant on the stack.
fn push(word: i32, x: &Input, stack: &mut OperandStack) -> Result<Turn, NoMemory>
    ensures turn { IfOk result (λ turn. turn ≡ Turn.Next) }
    ensures effect { OnOk result (effect marks (Push word) (here_with (marked x.now) stack.old) ≡ effect_of Turn.Next (here_with (marked x.now) stack.new)) }
    ensures depth { OnOk result (length stack.new ≡ length stack.old + 1) }
{
    stack.push(constant(word))?;
    Ok(Turn::Next)
}

/// Replaces the two top ints by what the operator gives; the upper one is the right operand.
fn combine(op: Bin, x: &Input, stack: &mut OperandStack) -> Result<Turn, NoMemory>
    requires { 1 < length stack.old }
    ensures turn { IfOk result (λ turn. turn ≡ Turn.Next) }
    ensures effect { OnOk result (effect marks (Combine op) (here_with (marked x.now) stack.old) ≡ effect_of Turn.Next (here_with (marked x.now) stack.new)) }
    ensures depth { OnOk result (length stack.new ≡ length stack.old - 1) }
{
    let right = stack.pop();
    let left = stack.pop();
    let result = MarkedInt {
        word: apply2(op, left.word, right.word),
        plain: left.plain && right.plain,
    };
    stack.push(result)?;
    Ok(Turn::Next)
}
