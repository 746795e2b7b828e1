ghost use Rattle.std.specs.Prelude.{◌≡◌, Some, false, ℕ};
ghost use Rattle.ms_pool.specs.ByNumber as by_number;
ghost use Rattle.ms_classfile.specs.ClassFile.{IsClassFile};
ghost use Rattle.ms_classwrite.specs.declared.plan.PoolLine.{PoolLine};
ghost use Rattle.ms_classwrite.specs.Layout.{is_too_large, layout, pool_of};
ghost use Rattle.ms_classwrite.specs.Plans.{AreDifferent, AreLinked, Plan, entry_of, line_at};
ghost use Rattle.ms_classwrite.specs.ReadBack.{HasTypes, IsReadable, class_of};

/// The law of plans: the file of one that is linked, isn't too large and can be read back is the class file
/// of its class, with its lines by their numbers, and no line twice. It does nothing.
pub fn written_plans_are_read_back()
    // The file of a plan is the class file of the plan's class, as `write_class` says of each that it writes.
    ensures read { (plan : Plan) → AreLinked plan.lines → is_too_large plan ≡ false → HasTypes plan → IsReadable plan → IsClassFile (layout plan) (class_of plan) }
    // In the class's pool each line of the plan has its number.
    ensures numbers { (plan : Plan) (i : ℕ) (line : PoolLine) → line_at plan.lines i ≡ Some line → by_number.entry_of (class_of plan).pool i ≡ Some (entry_of line) }
    // No line stands in the pool twice, where none does among the plan's own.
    ensures once { (plan : Plan) → AreDifferent plan.lines → AreDifferent (pool_of plan) }
{}
