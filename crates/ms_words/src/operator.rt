ghost use Rattle.std.specs.Prelude.{◌≡◌};
ghost use Rattle.ms_words.specs.Relations.{related};
ghost use Rattle.ms_words.specs.Words.{applied1, applied2};
ghost use Rattle.ms_words.specs.declared.operator.Bin.TheVariants.{Div, Rem, Shl, Ushr};
ghost use Rattle.ms_words.specs.declared.operator.Un.TheVariants.{I2b, I2s};

/// An operator on one word (JVMS SE 8, section 6.5: ineg, i2b, i2c, i2s).
#[derive(Clone, Copy, Debug, PartialEq, Eq, Hash)]
pub enum Un {
    Neg,
    I2b,
    I2c,
    I2s,
}

/// An operator on two words (JVMS SE 8, section 6.5: iadd, isub, imul, idiv, irem, ishl, ishr, iushr,
/// iand, ior, ixor). A shift uses the lowest five bits of its count. By zero, where no instruction
/// divides, `Div` gives -1, or 1 for a negative word, and `Rem` gives the first word.
#[derive(Clone, Copy, Debug, PartialEq, Eq, Hash)]
pub enum Bin {
    Add,
    Sub,
    Mul,
    Div,
    Rem,
    Shl,
    Shr,
    Ushr,
    And,
    Or,
    Xor,
}

/// A relation between two words (JVMS SE 8, section 6.5: if_icmp). `Uge` compares them as unsigned
/// numbers.
#[derive(Clone, Copy, Debug, PartialEq, Eq)]
pub enum Rel {
    Eq,
    Ne,
    Lt,
    Ge,
    Gt,
    Le,
    Uge,
}

/// The word that the operator gives for a word. It takes no memory.
pub fn apply1(op: Un, a: i32) -> i32
    ensures { result ≡ applied1 op a }
{
    match op {
        Un::Neg => a.wrapping_neg(),
        Un::I2b => signed_byte(a),
        Un::I2c => a.rem_euclid(0x1_0000),
        Un::I2s => signed_short(a),
    }
}

/// The lowest 8 bits of a word, as a signed number.
fn signed_byte(a: i32) -> i32
    ensures { result ≡ applied1 I2b a }
{
    let low = a.rem_euclid(0x100) as u8;
    i32::from(low.cast_signed())
}

/// The lowest 16 bits of a word, as a signed number.
fn signed_short(a: i32) -> i32
    ensures { result ≡ applied1 I2s a }
{
    let low = a.rem_euclid(0x1_0000) as u16;
    i32::from(low.cast_signed())
}

/// The word that the operator gives for two words. It takes no memory.
pub fn apply2(op: Bin, a: i32, b: i32) -> i32
    ensures { result ≡ applied2 op a b }
{
    match op {
        Bin::Add => a.wrapping_add(b),
        Bin::Sub => a.wrapping_sub(b),
        Bin::Mul => a.wrapping_mul(b),
        Bin::Div => divided(a, b),
        Bin::Rem => left_over(a, b),
        Bin::Shl => shifted_up(a, b),
        Bin::Shr => a.wrapping_shr(b.cast_unsigned()),
        Bin::Ushr => shifted_down(a, b),
        Bin::And => a & b,
        Bin::Or => a | b,
        Bin::Xor => a ^ b,
    }
}

/// The quotient of two words; by zero -1, or 1 for a negative word.
fn divided(a: i32, b: i32) -> i32
    ensures { result ≡ applied2 Div a b }
{
    if b == 0 {
        return if a < 0 { 1 } else { -1 };
    }
    a.wrapping_div(b)
}

/// The remainder of two words; by zero the first.
fn left_over(a: i32, b: i32) -> i32
    ensures { result ≡ applied2 Rem a b }
{
    if b == 0 {
        return a;
    }
    a.wrapping_rem(b)
}

/// A word shifted to the left, by the lowest five bits of a count.
fn shifted_up(a: i32, b: i32) -> i32
    ensures { result ≡ applied2 Shl a b }
{
    a.wrapping_shl(b.cast_unsigned())
}

/// A word shifted to the right as an unsigned number, by the lowest five bits of a count.
fn shifted_down(a: i32, b: i32) -> i32
    ensures { result ≡ applied2 Ushr a b }
{
    a.cast_unsigned()
        .wrapping_shr(b.cast_unsigned())
        .cast_signed()
}

/// Whether the relation holds between two words. It takes no memory.
pub fn holds(rel: Rel, a: i32, b: i32) -> bool
    ensures { result ≡ related rel a b }
{
    match rel {
        Rel::Eq => a == b,
        Rel::Ne => a != b,
        Rel::Lt => a < b,
        Rel::Ge => a >= b,
        Rel::Gt => a > b,
        Rel::Le => a <= b,
        Rel::Uge => a.cast_unsigned() >= b.cast_unsigned(),
    }
}
