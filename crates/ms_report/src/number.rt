ghost use Rattle.std.specs.Prelude.{◌≡◌, ◌∷◌, ◌++◌, codes, OnOk};
ghost use Rattle.std.specs.Fmt.{decimal, signed_decimal};
ghost use Rattle.std.specs.List.{flat_map};
ghost use Rattle.ms_report.specs.Rows.{input_text, string_text};

use ms_words::NoMemory;
use std::alloc::Global;

/// Adds a string: its arms, joined by points, or `-` where it has none.
pub fn push_string(alloc: Global, text: &mut Vec<u8>, arms: &[u16]) -> Result<(), NoMemory>
    ensures { OnOk result (text.new.items ≡ text.old.items ++ string_text arms.now) }
{
    match arms {
        [] => push_none(text),
        [arm, rest @ ..] => {
            push_number(alloc, text, i64::from(*arm))?;
            push_arms_behind(alloc, text, rest)
        }
    }
}

/// Adds the words of an input, joined by commas, or `-` where there are none.
pub fn push_input(alloc: Global, text: &mut Vec<u8>, words: &[i32]) -> Result<(), NoMemory>
    ensures { OnOk result (text.new.items ≡ text.old.items ++ input_text words.now) }
{
    match words {
        [] => push_none(text),
        [word, rest @ ..] => {
            push_number(alloc, text, i64::from(*word))?;
            push_words_behind(alloc, text, rest)
        }
    }
}

/// Adds `-`, which stands for an empty list.
fn push_none(text: &mut Vec<u8>) -> Result<(), NoMemory>
    ensures { OnOk result (text.new.items ≡ text.old.items ++ codes "-") }
{
    text.push(b'-')?;
    Ok(())
}

/// Adds these arms, each behind a point.
fn push_arms_behind(alloc: Global, text: &mut Vec<u8>, arms: &[u16]) -> Result<(), NoMemory>
    ensures { OnOk result (text.new.items ≡ text.old.items ++ flat_map (λ arm. codes "." ++ decimal arm) arms.now) }
{
    for arm in arms {
        push_behind(alloc, text, b'.', i64::from(*arm))?;
    }
    Ok(())
}

/// Adds these words, each behind a comma.
fn push_words_behind(alloc: Global, text: &mut Vec<u8>, words: &[i32]) -> Result<(), NoMemory>
    ensures { OnOk result (text.new.items ≡ text.old.items ++ flat_map (λ word. codes "," ++ signed_decimal word) words.now) }
{
    for word in words {
        push_behind(alloc, text, b',', i64::from(*word))?;
    }
    Ok(())
}

/// Adds a number behind this byte.
fn push_behind(
    alloc: Global,
    text: &mut Vec<u8>,
    separator: u8,
    number: i64,
) -> Result<(), NoMemory>
    ensures { OnOk result (text.new.items ≡ text.old.items ++ separator ∷ signed_decimal number) }
{
    text.push(separator)?;
    push_number(alloc, text, number)
}

fn push_number(alloc: Global, text: &mut Vec<u8>, number: i64) -> Result<(), NoMemory>
    ensures { OnOk result (text.new.items ≡ text.old.items ++ signed_decimal number) }
{
    let digits = format!(in alloc; "{number}")?;
    text.extend_from_slice(digits.as_bytes())
}
