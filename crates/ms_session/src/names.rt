ghost use Rattle.std.specs.Prelude.{◌≡◌, ◌∷◌, [], IfOk};
ghost use Rattle.ms_program.specs.Programs.{IsProgram};
ghost use Rattle.ms_session.specs.Once.{names_of};

use ms_program::Program;
use ms_words::{Name, NoMemory};
use std::alloc::Global;

/// The list of one name.
pub fn one_name(alloc: Global, name: &[u8]) -> Result<Vec<Name>, NoMemory>
    ensures { IfOk result (λ names. names.items ≡ name.now ∷ []) }
{
    let mut names = Vec::new(alloc);
    names.push(Name::of(alloc, name)?)?;
    Ok(names)
}

/// The names of the classes of a program, by their numbers.
pub fn class_names(alloc: Global, program: &Program) -> Result<Vec<Name>, NoMemory>
    ensures names { IfOk result (λ names. names.items ≡ names_of program.now) }
    ensures program { IsProgram program.now }
{
    let mut names = Vec::new(alloc);
    for class in 0..program.classes() {
        names.push(Name::of(alloc, program.class_name(class))?)?;
    }
    Ok(names)
}
