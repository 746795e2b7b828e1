//! How the parts of a class file are written.
ghost use Rattle.std.specs.Prelude.{◌≡◌, ◌≤◌, ◌+◌, ◌++◌, codes, false, length, map, OnOk};
ghost use Rattle.std.specs.List.{flat_map, list_any};
ghost use Rattle.ms_pool.specs.Pools.{One, Two, Utf8, spelled_entry, spelled_pool, u2, u4};
ghost use Rattle.ms_classwrite.specs.Layout.{class_number, is_long, is_long_line, spelled_class, spelled_code, spelled_constant, spelled_field, spelled_fields, spelled_method, spelled_methods, text_number};
ghost use Rattle.ms_classwrite.specs.Lines.{line_view};
ghost use Rattle.ms_classwrite.specs.Plans.{entry_of, number_in};

use crate::lines::{Line, Lines};
use crate::{NoMemory, PlanField, PlanMethod};
use ms_pool::Out;

/// A text's entry: how many bytes it has, and these.
fn text(out: &mut Out, text: &[u8]) -> Result<(), NoMemory>
    requires { is_long text.now ≡ false }
    ensures { OnOk result (out.new ≡ out.old ++ spelled_entry (Utf8 text.now)) }
{
    out.u1(1)?;
    out.u2(text.len() as u16)?;
    out.slice(text)
}

/// An entry of one number.
fn one(out: &mut Out, tag: u8, number: u16) -> Result<(), NoMemory>
    ensures { OnOk result (out.new ≡ out.old ++ spelled_entry (One tag number)) }
{
    out.u1(tag)?;
    out.u2(number)
}

/// An entry of two numbers.
fn two(out: &mut Out, tag: u8, first: u16, second: u16) -> Result<(), NoMemory>
    ensures { OnOk result (out.new ≡ out.old ++ spelled_entry (Two tag first second)) }
{
    out.u1(tag)?;
    out.u2(first)?;
    out.u2(second)
}

/// The entry that a line is.
fn line(out: &mut Out, line: Line<'_>) -> Result<(), NoMemory>
    requires { is_long_line (line_view line) ≡ false }
    ensures { OnOk result (out.new ≡ out.old ++ spelled_entry (entry_of (line_view line.entry))) }
{
    match line {
        Line::Utf8(bytes) => text(out, bytes),
        Line::Integer(int) => {
            out.u1(3)?;
            out.u4(int.cast_unsigned())
        }
        Line::Class { name } => one(out, 7, name),
        Line::Text { utf8 } => one(out, 8, utf8),
        Line::NameAndType { name, desc } => two(out, 12, name, desc),
        Line::Field { class, member } => two(out, 9, class, member),
        Line::Method { class, member } => two(out, 10, class, member),
    }
}

fn entries(out: &mut Out, lines: &[Line<'_>]) -> Result<(), NoMemory>
    requires { list_any (λ line. is_long_line (line_view line)) lines.now ≡ false }
    ensures { OnOk result (out.new ≡ out.old ++ flat_map (λ line. spelled_entry (entry_of (line_view line))) lines.now) }
{
    for each in lines {
        line(out, *each)?;
    }
    Ok(())
}

/// The constant pool (section 4.1): one more than its entries, and these.
#[tactic(auto, using(crate::proofs::Same::any_viewed))]
pub fn pool(out: &mut Out, lines: &Lines<'_>) -> Result<(), NoMemory>
    requires few { length lines.now ≤ 65534 }
    requires short { list_any is_long_line lines.now ≡ false }
    ensures { OnOk result (out.new ≡ out.old ++ spelled_pool (map entry_of lines.now)) }
{
    out.u2(lines.len() as u16 + 1)?;
    entries(out, lines.all())
}

/// The number of a line.
fn number(lines: &Lines<'_>, line: Line<'_>) -> u16
    requires { length lines.now ≤ 65534 }
    ensures { result ≡ number_in lines.now (line_view line.entry) }
{
    lines.place(line) as u16 + 1
}

/// The number of a text.
fn text_number(lines: &Lines<'_>, text: &[u8]) -> u16
    requires { length lines.now ≤ 65534 }
    ensures { result ≡ text_number lines.now text.now }
{
    number(lines, Line::Utf8(text))
}

/// The number of the class of this name.
fn class_number(lines: &Lines<'_>, name: &[u8]) -> u16
    requires { length lines.now ≤ 65534 }
    ensures { result ≡ class_number lines.now name.now }
{
    let name = text_number(lines, name);
    number(lines, Line::Class { name })
}

/// Flags, the class, its superclass and no interfaces.
#[tactic(auto, unfolding(crate::specs::Layout::spelled_class))]
pub fn class(out: &mut Out, lines: &Lines<'_>, name: &[u8]) -> Result<(), NoMemory>
    requires { length lines.now ≤ 65534 }
    ensures { OnOk result (out.new ≡ out.old ++ spelled_class lines.now name.now) }
{
    out.u2(0x0021)?;
    out.u2(class_number(lines, name))?;
    out.u2(class_number(lines, b"java/lang/Object"))?;
    out.u2(0)
}

/// One attribute, a ConstantValue, of the int of this line.
fn constant_value(out: &mut Out, lines: &Lines<'_>, int: Line<'_>) -> Result<(), NoMemory>
    requires { length lines.now ≤ 65534 }
    ensures { OnOk result (out.new ≡ out.old ++ (u2 1 ++ u2 (text_number lines.now (codes "ConstantValue")) ++ u4 2 ++ u2 (number_in lines.now (line_view int.entry)))) }
{
    out.u2(1)?;
    out.u2(text_number(lines, b"ConstantValue"))?;
    out.u4(2)?;
    out.u2(number(lines, int))
}

/// A field's attributes.
#[tactic(auto, unfolding(crate::specs::Layout::spelled_constant))]
fn constant(out: &mut Out, lines: &Lines<'_>, constant: Option<i32>) -> Result<(), NoMemory>
    requires { length lines.now ≤ 65534 }
    ensures { OnOk result (out.new ≡ out.old ++ spelled_constant lines.now constant) }
{
    match constant {
        None => out.u2(0),
        Some(int) => constant_value(out, lines, Line::Integer(int)),
    }
}

#[tactic(auto, unfolding(crate::specs::Layout::spelled_field))]
fn field(out: &mut Out, lines: &Lines<'_>, field: &PlanField) -> Result<(), NoMemory>
    requires { length lines.now ≤ 65534 }
    ensures { OnOk result (out.new ≡ out.old ++ spelled_field lines.now field.now) }
{
    out.u2(field.access)?;
    out.u2(text_number(lines, field.name.get()))?;
    out.u2(text_number(lines, field.desc.get()))?;
    constant(out, lines, field.constant)
}

fn each_field(out: &mut Out, lines: &Lines<'_>, fields: &[PlanField]) -> Result<(), NoMemory>
    requires { length lines.now ≤ 65534 }
    ensures { OnOk result (out.new ≡ out.old ++ flat_map (spelled_field lines.now) fields.now) }
{
    for each in fields {
        field(out, lines, each)?;
    }
    Ok(())
}

/// How many fields there are, and these.
#[tactic(auto, unfolding(crate::specs::Layout::spelled_fields))]
pub fn fields(out: &mut Out, lines: &Lines<'_>, fields: &[PlanField]) -> Result<(), NoMemory>
    requires few { length lines.now ≤ 65534 }
    requires counted { length fields.now ≤ 65535 }
    ensures { OnOk result (out.new ≡ out.old ++ spelled_fields lines.now fields.now) }
{
    out.u2(fields.len() as u16)?;
    each_field(out, lines, fields)
}

/// What a Code attribute begins with.
fn code_head(out: &mut Out, lines: &Lines<'_>, method: &PlanMethod) -> Result<(), NoMemory>
    requires few { length lines.now ≤ 65534 }
    requires short { is_long method.now.code ≡ false }
    ensures { OnOk result (out.new ≡ out.old ++ (u2 (text_number lines.now (codes "Code")) ++ u4 (length method.now.code + 12) ++ u2 method.now.max_stack ++ u2 method.now.max_locals)) }
{
    out.u2(text_number(lines, b"Code"))?;
    out.u4(method.code.get().len() as u32 + 12)?;
    out.u2(method.max_stack)?;
    out.u2(method.max_locals)
}

/// The code, with no exception table and no attributes.
fn code_bytes(out: &mut Out, method: &PlanMethod) -> Result<(), NoMemory>
    requires { is_long method.now.code ≡ false }
    ensures { OnOk result (out.new ≡ out.old ++ (u4 (length method.now.code) ++ method.now.code ++ u2 0 ++ u2 0)) }
{
    let code = method.code.get();
    out.u4(code.len() as u32)?;
    out.slice(code)?;
    out.u2(0)?;
    out.u2(0)
}

#[tactic(auto, unfolding(crate::specs::Layout::spelled_code))]
fn code(out: &mut Out, lines: &Lines<'_>, method: &PlanMethod) -> Result<(), NoMemory>
    requires few { length lines.now ≤ 65534 }
    requires short { is_long method.now.code ≡ false }
    ensures { OnOk result (out.new ≡ out.old ++ spelled_code lines.now method.now) }
{
    code_head(out, lines, method)?;
    code_bytes(out, method)
}

/// Flags, name, descriptor and how many attributes.
fn method_head(out: &mut Out, lines: &Lines<'_>, method: &PlanMethod) -> Result<(), NoMemory>
    requires { length lines.now ≤ 65534 }
    ensures { OnOk result (out.new ≡ out.old ++ (u2 method.now.access ++ u2 (text_number lines.now method.now.name) ++ u2 (text_number lines.now method.now.desc) ++ u2 1)) }
{
    out.u2(method.access)?;
    out.u2(text_number(lines, method.name.get()))?;
    out.u2(text_number(lines, method.desc.get()))?;
    out.u2(1)
}

#[tactic(auto, unfolding(crate::specs::Layout::spelled_method))]
fn method(out: &mut Out, lines: &Lines<'_>, method: &PlanMethod) -> Result<(), NoMemory>
    requires few { length lines.now ≤ 65534 }
    requires short { is_long method.now.code ≡ false }
    ensures { OnOk result (out.new ≡ out.old ++ spelled_method lines.now method.now) }
{
    method_head(out, lines, method)?;
    code(out, lines, method)
}

fn each_method(out: &mut Out, lines: &Lines<'_>, methods: &[PlanMethod]) -> Result<(), NoMemory>
    requires few { length lines.now ≤ 65534 }
    requires short { list_any (λ method. is_long method.code) methods.now ≡ false }
    ensures { OnOk result (out.new ≡ out.old ++ flat_map (spelled_method lines.now) methods.now) }
{
    for each in methods {
        method(out, lines, each)?;
    }
    Ok(())
}

/// How many methods there are, and these.
#[tactic(auto, unfolding(crate::specs::Layout::spelled_methods))]
pub fn methods(out: &mut Out, lines: &Lines<'_>, methods: &[PlanMethod]) -> Result<(), NoMemory>
    requires few { length lines.now ≤ 65534 }
    requires counted { length methods.now ≤ 65535 }
    requires short { list_any (λ method. is_long method.code) methods.now ≡ false }
    ensures { OnOk result (out.new ≡ out.old ++ spelled_methods lines.now methods.now) }
{
    out.u2(methods.len() as u16)?;
    each_method(out, lines, methods)
}
