ghost use Rattle.std.specs.Prelude.{◌≡◌, ◌⊎◌, ◌↔◌, Err, IsTrue, Ok, ℕ};
ghost use Rattle.ms_pool.specs.declared.code.ClassKind.{ClassKind};
ghost use Rattle.ms_pool.specs.Places.{Place, beginning};
ghost use Rattle.ms_code.specs.Codes.{Code, DecodedCode, HasFault, IsDecoded, IsForeign, decoded};
ghost use Rattle.ms_code.specs.declared.trouble.Trouble.TheVariants.{At, Foreign};
ghost use Rattle.ms_code.specs.Laws.{AreBytes, IsAtFault, IsWhole, SaysSomething, Slots, is_code_fault};

/// The law of codes, of bytes below 256: each is decoded, foreign or at fault. It does nothing.
pub fn codes_are_decoded_foreign_or_at_fault()
    // One of the three.
    ensures one_of_three { (pool : Slots) (code : Code) → AreBytes code → SaysSomething pool code ⊎ IsForeign pool code ⊎ IsAtFault pool code }
    // And no other one.
    ensures decoded_only { (pool : Slots) (code : Code) → AreBytes code → SaysSomething pool code → (¬ IsForeign pool code) × (¬ IsAtFault pool code) }
    ensures foreign_only { (pool : Slots) (code : Code) → AreBytes code → IsForeign pool code → ¬ IsAtFault pool code }
    // A fault is one of a code.
    ensures kinds { (pool : Slots) (code : Code) (kind : ClassKind) (at : ℕ) → AreBytes code → HasFault pool code kind at → IsTrue (is_code_fault kind) }
    // It says one thing at most, and has one first fault at most.
    ensures one_code { (pool : Slots) (code : Code) (first second : DecodedCode) → AreBytes code → IsDecoded pool code first → IsDecoded pool code second → first ≡ second }
    ensures one_fault { (pool : Slots) (code : Code) (kind other_kind : ClassKind) (at other : ℕ) → AreBytes code → HasFault pool code kind at → HasFault pool code other_kind other → (kind ≡ other_kind) × (at ≡ other) }
{}

/// The law of decoded codes, of bytes below 256. It does nothing.
pub fn decoded_codes_are_whole()
    ensures { (pool : Slots) (code : Code) (decoded : DecodedCode) → AreBytes code → IsDecoded pool code decoded → IsWhole pool code decoded }
{}

/// The law of decoding, of bytes below 256: what the definition of codes reads of one is what it says, or
/// why it says nothing. It does nothing.
pub fn codes_are_read()
    ensures decoded { (pool : Slots) (code : Code) (result : DecodedCode) → AreBytes code → IsDecoded pool code result ↔ ((after : Place) × ((decoded pool code).read (beginning code.code) ≡ Ok (result, after))) }
    ensures foreign { (pool : Slots) (code : Code) → AreBytes code → IsForeign pool code ↔ ((decoded pool code).read (beginning code.code) ≡ Err Foreign) }
    ensures fault { (pool : Slots) (code : Code) (kind : ClassKind) (at : ℕ) → AreBytes code → HasFault pool code kind at ↔ ((decoded pool code).read (beginning code.code) ≡ Err (At kind at)) }
{}
