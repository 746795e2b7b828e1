ghost use Rattle.std.specs.Prelude.{◌≡◌, IsSome, IsTrue, Some, ℕ};
ghost use Rattle.ms_words.specs.declared.item.Item.TheVariants.{At};
ghost use Rattle.ms_code.specs.Opcodes.{form_of};
ghost use Rattle.ms_program.specs.Programs.{IsProgram, Program};
ghost use Rattle.ms_program.specs.Views.{has_view};
ghost use Rattle.ms_machine.specs.Control.{Program as Machine};
ghost use Rattle.ms_linking.specs.Groups.{group_of};
ghost use Rattle.ms_linking.specs.Laws.{IsInOrder, go_together};
ghost use Rattle.ms_linking.specs.Linked.{program_of, views_of};

use ms_program::{instructions_are_of_the_subset, views_lead_to_views};

/// The law of opcodes: exactly those that are decoded, but for `wide`, have a row in the table of what the
/// machine does, and what stands behind each is what its row takes. It does nothing.
pub fn opcodes_have_groups()
    ensures { (op : ℕ) → IsTrue (go_together (form_of op) (group_of op)) }
{}

/// The law of what the machine sees: it sees each instruction of a program, and a program whose entry is
/// set can be run. It does nothing.
pub fn programs_are_linked()
    ensures instructions { (P : Program) (class method offset : ℕ) → IsProgram P → IsTrue (has_view P (At class method offset)) → IsSome (views_of P (At class method offset)) }
    ensures entry { (P : Program) → IsProgram P → IsSome P.entry → IsSome (program_of P) }
{
    instructions_are_of_the_subset();
}

/// The law of the program that the machine runs: each item of it has a view, and the keys of each switch
/// differ and are fewer than 65,535. It does nothing.
pub fn linked_programs_are_in_order()
    ensures { (P : Program) (machine : Machine) → IsProgram P → program_of P ≡ Some machine → IsInOrder machine }
{
    instructions_are_of_the_subset();
    views_lead_to_views();
}
