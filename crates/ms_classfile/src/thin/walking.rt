ghost use Rattle.std.specs.Prelude.{◌≡◌, ◌≤◌, ◌^◌};
ghost use Rattle.ms_classfile.specs.Instructions as walking;

use crate::Instruction;

/// How many bytes a branch has.
const BRANCH_SIZE: usize = 3;

/// The depth of the stack behind an instruction that finds its operands at this depth.
fn depth_after(depth: usize, instruction: Instruction) -> usize
    requires { depth ≤ 2 ^ 63 }
    ensures { result ≡ walking.depth_after depth instruction }
{
    match instruction {
        Instruction::IloadN(_) | Instruction::Iload(_) => depth + 1,
        Instruction::Iconst(_) | Instruction::Bipush(_) => depth + 1,
        Instruction::Iadd | Instruction::Isub => depth.saturating_sub(1),
        Instruction::If(_, _) | Instruction::Ireturn => depth.saturating_sub(1),
        Instruction::IfIcmp(_, _) => depth.saturating_sub(2),
    }
}

/// Whether an instruction starts so many bytes on in the code, and the stack, walked from an empty one,
/// is empty before it.
fn is_empty_at(far: usize, code: &[Instruction]) -> bool
    ensures { result ≡ walking.is_empty_at 0 far code.now }
{
    let mut depth = 0usize;
    let mut left = far;
    for instruction in code {
        if left == 0 {
            return depth == 0;
        }
        let size = instruction.size();
        if size > left {
            return false;
        }
        left -= size;
        depth = depth_after(depth, *instruction);
    }
    false
}

/// Whether a branch with this code behind it leads so far to the start of an instruction above its own
/// offset, before which the stack is empty.
fn is_target(far: u16, code: &[Instruction]) -> bool
    ensures { result ≡ walking.is_target far code.now }
{
    let far = usize::from(far);
    far >= BRANCH_SIZE && is_empty_at(far - BRANCH_SIZE, code)
}

/// Whether an instruction may stand at this depth with this code behind it.
fn is_placed(
    parameters: usize,
    most: usize,
    depth: usize,
    instruction: Instruction,
    code: &[Instruction],
) -> bool
    ensures { result ≡ walking.is_placed parameters most depth instruction code.now }
{
    match instruction {
        Instruction::IloadN(local) => usize::from(local) < parameters && depth < most,
        Instruction::Iload(local) => usize::from(local) < parameters && depth < most,
        Instruction::Iconst(_) | Instruction::Bipush(_) => depth < most,
        Instruction::Iadd | Instruction::Isub => depth > 1,
        Instruction::If(_, far) => depth == 1 && is_target(far, code),
        Instruction::IfIcmp(_, far) => depth == 2 && is_target(far, code),
        Instruction::Ireturn => depth == 1,
    }
}

/// Whether each instruction of the code, walked in order from an empty stack, may stand where it does.
pub fn is_walked(parameters: usize, most: usize, code: &[Instruction]) -> bool
    ensures { result ≡ walking.is_walked parameters most 0 code.now }
{
    let mut depth = 0usize;
    for (at, instruction) in code.iter().enumerate() {
        if !is_placed(parameters, most, depth, *instruction, &code[at + 1..]) {
            return false;
        }
        depth = depth_after(depth, *instruction);
    }
    true
}

/// Whether the instruction is a return.
fn is_return(instruction: Instruction) -> bool
    ensures { result ≡ walking.is_return instruction }
{
    matches!(instruction, Instruction::Ireturn)
}

/// Whether the code ends with a return.
pub fn ends_with_return(code: &[Instruction]) -> bool
    ensures { result ≡ walking.ends_with_return code.now }
{
    match code.last() {
        Some(last) => is_return(*last),
        None => false,
    }
}
