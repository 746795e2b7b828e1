ghost use Rattle.std.specs.Prelude.{◌≡◌, ◌↔◌, ◌<◌, ◌⊎◌, All, Err, List, Ok, Some, ℕ};
ghost use Rattle.ms_words.specs.declared.item.Item.{Item};
ghost use Rattle.ms_words.specs.declared.item.Item.TheVariants as items;
ghost use Rattle.ms_pool.specs.declared.code.ClassKind.{ClassKind};
ghost use Rattle.ms_classfile.specs.declared.fault.ClassFault.TheVariants.{At};
ghost use Rattle.ms_code.specs.declared.instruction.Instr.{Instr};
ghost use Rattle.ms_program.specs.Files.{File, IsFile, IsFirstFault};
ghost use Rattle.ms_program.specs.Laws.{HasFirstItems, IsWholeBody, IsOfSubset, LeadsToViews};
ghost use Rattle.ms_program.specs.declared.body.Body.{Body};
ghost use Rattle.ms_program.specs.declared.method.MethodId.{MethodId};
ghost use Rattle.ms_program.specs.Programs.{IsProgram, Program, body_of};
ghost use Rattle.ms_program.specs.Reading.{file_read};
ghost use Rattle.ms_program.specs.Views.{View, view};

use ms_classfile::{
    class_files_are_read, class_files_are_whole_or_have_a_fault, codes_lie_in_their_file,
    faults_have_places,
};
use ms_code::{codes_are_decoded_foreign_or_at_fault, codes_are_read, decoded_codes_are_whole};
use ms_pool::pools_hold_what_they_name;

/// The law of whole files, of bytes below 256: of which file they are, or which first fault they have, the
/// function `file_read` says. So they are of one file at most, have one first fault at most, and not both.
/// It does nothing.
pub fn files_are_read()
    ensures file { (bytes : List ℕ) (file : File) → All (λ byte. byte < 256) bytes → IsFile bytes file ↔ (file_read bytes ≡ Ok file) }
    ensures fault { (bytes : List ℕ) (kind : ClassKind) (at : ℕ) → All (λ byte. byte < 256) bytes → IsFirstFault bytes kind at ↔ (file_read bytes ≡ Err (At kind at)) }
{
    class_files_are_read();
    codes_lie_in_their_file();
    codes_are_read();
}

/// The law of files, of bytes below 256: they are a file or have a first fault. It does nothing.
pub fn files_are_whole_or_have_a_fault()
    ensures { (bytes : List ℕ) → All (λ byte. byte < 256) bytes → ((file : File) × IsFile bytes file) ⊎ ((kind : ClassKind) × (at : ℕ) × IsFirstFault bytes kind at) }
{
    class_files_are_whole_or_have_a_fault();
    faults_have_places();
    codes_lie_in_their_file();
    codes_are_decoded_foreign_or_at_fault();
}

/// The law of views: each item that stands in the view of an item of a program is an instruction, and so has
/// a view itself. It does nothing.
pub fn views_lead_to_views()
    ensures { (P : Program) (item : Item) (v : View) → IsProgram P → view P item ≡ Some v → LeadsToViews P v }
{
    codes_lie_in_their_file();
    decoded_codes_are_whole();
    pools_hold_what_they_name();
}

/// The law of codes: that of each method that isn't foreign has 1 to 65,535 bytes, and an instruction starts
/// wherever it leads. It does nothing.
pub fn bodies_have_whole_codes()
    ensures { (P : Program) (id : MethodId) (body : Body) → IsProgram P → body_of P id ≡ Some body → IsWholeBody body }
{
    codes_lie_in_their_file();
    decoded_codes_are_whole();
    pools_hold_what_they_name();
}

/// The law of what is called: the view of an instruction that calls a method that is there has the first
/// instruction of that method, and where there is an initialiser that isn't foreign, it has the first one of
/// that. It does nothing.
pub fn members_have_first_items()
    ensures { (P : Program) (item : Item) (v : View) → view P item ≡ Some v → HasFirstItems v }
{}

/// The law of instructions: the view of each instruction of a program has one of the subset, with what its
/// form asks for. It does nothing.
pub fn instructions_are_of_the_subset()
    ensures { (P : Program) (class method offset : ℕ) (v : View) → IsProgram P → view P (items.At class method offset) ≡ Some v → (instr : Instr) × (v.instr ≡ Some instr) × IsOfSubset v instr }
{
    codes_lie_in_their_file();
    decoded_codes_are_whole();
    pools_hold_what_they_name();
}
