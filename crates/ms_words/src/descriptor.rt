ghost use Rattle.std.specs.Prelude.{◌≡◌, ◌↔◌, IfOk, List, Some, false, is_some, length, option_and_then, option_map, ℕ};
ghost use Rattle.ms_words.specs.Descriptors.{Signature, counted, entry_part_of, few, field_type_of, ints_in, kind_of, part, result_kind, result_of, signature_of, spelled_signature, spelled_type, types_in};
ghost use Rattle.ms_words.specs.declared.descriptor.FieldType as types;

use crate::{Kind, Kinds, NoMemory};
use std::alloc::Global;
use std::marker::Model;

/// What a field, a parameter or a result holds, of the types that the machine knows (JVMS SE 8, section
/// 4.3.2): an int of a kind, or an array of ints.
#[derive(Clone, Copy, PartialEq, Eq)]
pub enum FieldType {
    Int(Kind),
    IntArray,
}

/// What an entry takes and returns: ints of these kinds, and an int of one, or nothing.
#[derive(Clone, Copy)]
pub struct EntryPart {
    pub kinds: Kinds,
    pub result: Option<Kind>,
}

/// What a method takes and returns, of types that the machine knows (JVMS SE 8, section 4.3.3).
#[derive(Drop)]
pub struct Signature {
    parameters: Vec<FieldType>,
    result: Option<FieldType>,
}

impl Model for Signature {
    ghost use Rattle.ms_words.specs.Descriptors.{Signature as Typed};

    ghost Value = { Typed };

    ghost view = { λ signature. record { parameters = signature.parameters.items; result = signature.result } };
}

impl Signature {
    /// The types of its parameters, in order.
    pub fn parameters(&self) -> &[FieldType]
        ensures { result.now ≡ self.now.parameters }
    {
        self.parameters.as_slice()
    }

    /// The type of its result; none where it is void.
    pub fn result(&self) -> Option<FieldType>
        ensures { result ≡ self.now.result }
    {
        self.result
    }
}

/// The kind that a letter of a descriptor stands for (table 4.3-A).
fn kind_of(letter: u8) -> Option<Kind>
    ensures { result ≡ kind_of letter }
{
    match letter {
        b'Z' => Some(Kind::Z),
        b'B' => Some(Kind::B),
        b'C' => Some(Kind::C),
        b'S' => Some(Kind::S),
        b'I' => Some(Kind::I),
        _ => None,
    }
}

/// The type that a field descriptor names (section 4.3.2), where it is one of those that the machine
/// knows: `Z`, `B`, `C`, `S`, `I` or `[I`.
pub fn field_type(desc: &[u8]) -> Option<FieldType>
    ensures { result ≡ field_type_of desc.now }
{
    match desc {
        [b'[', b'I'] => Some(FieldType::IntArray),
        [letter] => Some(FieldType::Int(kind_of(*letter)?)),
        _ => None,
    }
}

/// How many parameters there are, each of a known type, up to the parenthesis that closes them, and what
/// stands behind it.
fn parameters(text: &[u8]) -> Option<(usize, &[u8])>
    ensures { option_map (λ found. (found.0, found.1.now)) result ≡ option_map counted (types_in false text.now) }
{
    let mut in_array = false;
    let mut count = 0;
    for (at, letter) in text.iter().enumerate() {
        if in_array {
            if *letter != b'I' {
                return None;
            }
            in_array = false;
            count += 1;
        } else if *letter == b')' {
            return Some((count, &text[at + 1..]));
        } else if *letter == b'[' {
            in_array = true;
        } else {
            kind_of(*letter)?;
            count += 1;
        }
    }
    None
}

/// The types of the parameters, each a known one, up to the parenthesis that closes them.
fn types(alloc: Global, text: &[u8]) -> Result<Option<Vec<FieldType>>, NoMemory>
    ensures { IfOk result (λ types. option_map (λ types. types.items) types ≡ option_map (λ found. found.0) (types_in false text.now)) }
{
    let mut in_array = false;
    let mut types = Vec::new(alloc);
    for letter in text {
        if in_array {
            if *letter != b'I' {
                return Ok(None);
            }
            in_array = false;
            types.push(FieldType::IntArray)?;
        } else if *letter == b')' {
            return Ok(Some(types));
        } else if *letter == b'[' {
            in_array = true;
        } else {
            let Some(kind) = kind_of(*letter) else {
                return Ok(None);
            };
            types.push(FieldType::Int(kind))?;
        }
    }
    Ok(None)
}

/// The result that these bytes name, `None` in it for void, where it is void or of a known type.
fn result_type(text: &[u8]) -> Option<Option<FieldType>>
    ensures { result ≡ result_of text.now }
{
    match text {
        [b'V'] => Some(None),
        _ => Some(Some(field_type(text)?)),
    }
}

/// What a method with this descriptor takes and returns, where each parameter and the result are of a
/// `FieldType`, or the result is void.
pub fn known_signature(alloc: Global, desc: &[u8]) -> Result<Option<Signature>, NoMemory>
    ensures { IfOk result (λ signature. signature ≡ signature_of desc.now) }
{
    let [b'(', text @ ..] = desc else {
        return Ok(None);
    };
    let Some((_, rest)) = parameters(text) else {
        return Ok(None);
    };
    let Some(result) = result_type(rest) else {
        return Ok(None);
    };
    let Some(parameters) = types(alloc, text)? else {
        return Ok(None);
    };
    Ok(Some(Signature { parameters, result }))
}

/// Whether these bytes name a result: void, or a type that the machine knows.
fn is_known_result(text: &[u8]) -> bool
    ensures { result ≡ is_some (result_of text.now) }
{
    match text {
        [b'V'] => true,
        _ => field_type(text).is_some(),
    }
}

/// How many parameters a method descriptor (section 4.3.3) names, where each of them and the result are of
/// a `FieldType`, or the result is void.
pub fn known_parameters(desc: &[u8]) -> Option<usize>
    ensures { result ≡ option_map (λ signature. length signature.parameters) (signature_of desc.now) }
{
    let [b'(', text @ ..] = desc else {
        return None;
    };
    let (count, rest) = parameters(text)?;
    if !is_known_result(rest) {
        return None;
    }
    Some(count)
}

/// Whether a method descriptor (section 4.3.3) names types that the machine knows alone: each parameter
/// and the result are of a `FieldType`, or the result is void.
pub fn is_known_signature(desc: &[u8]) -> bool
    ensures { result ≡ is_some (signature_of desc.now) }
{
    known_parameters(desc).is_some()
}

/// The kinds of at most eight parameters, each an int, up to the parenthesis that closes them, and what
/// stands behind it.
#[tactic(auto, using(crate::proofs::EntryParts::no_int))]
fn int_parameters(text: &[u8]) -> Option<(Kinds, &[u8])>
    ensures { option_map (λ found. (found.0, found.1.now)) result ≡ few (ints_in (types_in false text.now)) }
{
    let mut kinds = Kinds::new();
    for (at, letter) in text.iter().enumerate() {
        if *letter == b')' {
            return Some((kinds, &text[at + 1..]));
        }
        let Some(kind) = kind_of(*letter) else {
            return None;
        };
        if !kinds.push(kind) {
            return None;
        }
    }
    None
}

/// The kind of a result, `None` for void, where it is an int or void.
fn int_result(text: &[u8]) -> Option<Option<Kind>>
    ensures { result ≡ option_and_then result_kind (result_of text.now) }
{
    match text {
        [b'V'] => Some(None),
        [letter] => Some(Some(kind_of(*letter)?)),
        _ => None,
    }
}

/// These kinds, with that of the result that stands behind them.
fn with_result(kinds: Kinds, text: &[u8]) -> Option<EntryPart>
    ensures { result ≡ option_map (part kinds) (option_and_then result_kind (result_of text.now)) }
{
    let result = int_result(text)?;
    Some(EntryPart { kinds, result })
}

/// The kinds of at most eight parameters, each an int, and that of the result behind them.
fn part_behind(text: &[u8]) -> Option<EntryPart>
    ensures { result ≡ option_and_then (λ found. option_map (part found.0) (option_and_then result_kind (result_of found.1))) (few (ints_in (types_in false text.now))) }
{
    match int_parameters(text) {
        Some((kinds, rest)) => with_result(kinds, rest),
        None => None,
    }
}

/// What an entry with this descriptor takes and returns: `None` where it has more than eight parameters,
/// one of another type than an int, or a result that is neither an int nor void.
#[tactic(auto, using(crate::proofs::EntryParts::opened))]
pub fn entry_part(desc: &[u8]) -> Option<EntryPart>
    ensures { result ≡ entry_part_of desc.now }
{
    match desc {
        [b'(', text @ ..] => part_behind(text),
        _ => None,
    }
}

/// The law of descriptors: what is read of one is what it spells. It does nothing.
pub fn descriptors_spell_types()
    ensures field { (desc : List ℕ) (field_type : types.FieldType) → (field_type_of desc ≡ Some field_type) ↔ (desc ≡ spelled_type field_type) }
    ensures method { (desc : List ℕ) (signature : Signature) → (signature_of desc ≡ Some signature) ↔ (desc ≡ spelled_signature signature) }
{}
