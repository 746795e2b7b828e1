ghost use Rattle.std.specs.Prelude.{◌≡◌, ◌∷◌, ◌<◌, ◌≤◌, [], cond, length, IfOk, OnErr, Some};
ghost use Rattle.ms_classfile.specs.Found.{view};
ghost use Rattle.ms_classfile.specs.ThinFile.{IsThinMethod};
ghost use Rattle.ms_machine.specs.Instructions.{relation};
ghost use Rattle.ms_machine.specs.Runs.{end_of, string};
ghost use Rattle.ms_jvm.specs.Ends.{path_end_of};
ghost use Rattle.ms_jvm.specs.Programs as programs;
ghost use Rattle.ms_jvm.specs.Programs.{comparison_of, program_of};
ghost use Rattle.ms_jvm.specs.Turns.{Chosen};

use crate::execute::execute;
use crate::marked::MarkedInt;
use crate::stack::OperandStack;
use crate::turn::Turn;
use ms_classfile::{Condition, Instruction, ThinMethod};
use ms_machine::marks_are_right;
use ms_trie::ChoiceString;
use ms_words::{Ended, Input, NoMemory, PathEnd, Rel, holds};
use std::alloc::Global;

/// The path of an input to a depth: its choices, and how it ends.
#[derive(Debug, Drop)]
pub struct Path {
    /// The arms of its choices, at most as many as the depth.
    pub choices: ChoiceString,
    /// How the run ends: by itself, or cut where one choice more is due.
    pub end: PathEnd,
}

/// The path of an input through a thin method to a depth, 0 to 256. The input has the kinds of the
/// method's parameters. It fails for want of memory alone (JVMS SE 8, section 6.5).
pub fn path_of(
    alloc: Global,
    method: &ThinMethod<'_>,
    x: &Input,
    depth: u16,
) -> Result<Path, NoMemory>
    requires thin { IsThinMethod (view method.now) }
    requires kinds { x.now.kinds ≡ method.now.kinds }
    requires depth { depth ≤ 256 }
    ensures choices { IfOk result (λ path. string (program_of (view method.now)) x.now depth ≡ path.choices) }
    ensures end { IfOk result (λ path. path_end_of (end_of (program_of (view method.now)) x.now depth) ≡ Some path.end) }
{
    marks_are_right();
    let mut stack = OperandStack::with_capacity(alloc, method.max_stack)?;
    let mut choices = ChoiceString::new(alloc);
    let mut rest = method.instructions.as_slice();
    loop {
        let (instruction, behind) = first(rest);
        let turn = execute(instruction, x, &mut stack)?;
        match turn {
            Turn::Next => rest = behind,
            Turn::Return(int) => {
                let end = PathEnd::Ended(Ended::Returned(int.word));
                return Ok(Path { choices, end });
            }
            Turn::Branch {
                condition,
                left,
                right,
                far,
            } => {
                let chosen = choose(condition, left, right, depth, &mut choices)?;
                let Some(taken) = chosen else {
                    let end = PathEnd::Cut;
                    return Ok(Path { choices, end });
                };
                rest = arm(taken, far, rest, behind);
            }
        }
    }
}

/// Whether a branch is taken. Where the test is a choice, its arm is added to the choices, unless as many
/// are made as the depth allows; then nothing is added, and the answer is `None`.
fn choose(
    condition: Condition,
    left: MarkedInt,
    right: MarkedInt,
    depth: u16,
    choices: &mut ChoiceString,
) -> Result<Option<bool>, NoMemory>
    requires few { length choices.old ≤ depth }
    requires depth { depth ≤ 256 }
    ensures chosen { IfOk result (Chosen (comparison_of condition) left right depth choices.old choices.new) }
    ensures err { OnErr result (choices.new ≡ choices.old) }
{
    let taken = holds(relation_of(condition), left.word, right.word);
    if left.plain && right.plain {
        return Ok(Some(taken));
    }
    if choices.arms().len() == usize::from(depth) {
        return Ok(None);
    }
    choices.push(u16::from(taken))?;
    Ok(Some(taken))
}

/// The code that comes after a branch that this code begins with.
fn arm<'c>(
    taken: bool,
    far: u16,
    code: &'c [Instruction],
    behind: &'c [Instruction],
) -> &'c [Instruction]
    ensures { result.now ≡ cond taken (programs.code_from far code.now) behind.now }
{
    if taken {
        code_from(usize::from(far), code)
    } else {
        behind
    }
}

/// The instruction that code begins with, and the code behind it.
fn first(code: &[Instruction]) -> (Instruction, &[Instruction])
    requires { 0 < length code.now }
    ensures { code.now ≡ result.0 ∷ result.1.now }
{
    (code[0], &code[1..])
}

/// The code that begins so many bytes on, or nothing where no instruction starts there.
fn code_from(offset: usize, code: &[Instruction]) -> &[Instruction]
    ensures { result.now ≡ programs.code_from offset code.now }
{
    let mut left = offset;
    for (at, instruction) in code.iter().enumerate() {
        if left == 0 {
            return &code[at..];
        }
        let size = instruction.size();
        if size > left {
            return &[];
        }
        left -= size;
    }
    &[]
}

/// The relation that a condition tests.
fn relation_of(condition: Condition) -> Rel
    ensures { result ≡ relation (comparison_of condition) }
{
    match condition {
        Condition::Eq => Rel::Eq,
        Condition::Ne => Rel::Ne,
        Condition::Lt => Rel::Lt,
        Condition::Ge => Rel::Ge,
        Condition::Gt => Rel::Gt,
        Condition::Le => Rel::Le,
    }
}
