ghost use Rattle.std.specs.Prelude.{◌≡◌, ◌<◌, ◌+◌, ◌*◌, ◌^◌, All, IfErr, IfOk, IfSome, length, map, option_and_then, option_map, slice_get};
ghost use Rattle.std.specs.Option.{option_copied};
ghost use Rattle.ms_classfile.specs.ClassLaws.{HasCodeWithin, LiesWithin};
ghost use Rattle.ms_classfile.specs.ClassViews.{class_view, code_view, method_view};
ghost use Rattle.ms_code.specs.Rows.{IsCoded, code_of};
ghost use Rattle.ms_program.specs.Files.{AreAtFault, AreBodies, IsBody, IsCodeFault, IsMethodFault, decodable, has_room, is_plain};

use ms_classfile::{ClassFault, MethodRow};
use ms_code::{CodeFault, Coded, Decoded, decode};
use ms_pool::{CodeRow, Pool};
use ms_words::known_parameters;
use std::alloc::Global;
use std::marker::Model;

/// What a method that isn't foreign does.
#[derive(Drop)]
pub struct Body {
    /// The most values on its operand stack, at most 256.
    pub max_stack: u16,
    /// How many locals it has, at most 256 and at least as many as parameters.
    pub max_locals: u16,
    /// Its code.
    pub code: Decoded,
}

/// What the methods of a class do, in file order; none where the method is foreign.
#[derive(Drop)]
pub struct Bodies {
    rows: Vec<Option<Body>>,
}

impl Model for Bodies {
    ghost use Rattle.std.specs.Prelude.{List, Option};
    ghost use Rattle.ms_program.specs.declared.body.Body.{Body as body};

    ghost Value = { List (Option body) };

    ghost view = { λ bodies. bodies.rows.items };
}

impl Bodies {
    /// What the method of this number does, where it isn't foreign, lent.
    pub fn get(&self, method: usize) -> Option<&Body>
        ensures { option_copied result ≡ option_and_then (λ body. body) (slice_get self.now method) }
    {
        self.rows.get(method)?.as_ref()
    }
}

/// Whether a method with these flags is static, and neither synchronized, native nor abstract.
fn is_plain(access: u16) -> bool
    ensures { result ≡ is_plain access }
{
    access & 0x0528 == 0x0008
}

/// Whether the code has at most 256 places on its stack and locals, and a local for each parameter.
fn has_room(parameters: usize, code: &CodeRow<'_>) -> bool
    ensures { result ≡ has_room parameters (code_view code.now) }
{
    code.max_stack <= 256 && code.max_locals <= 256 && parameters <= usize::from(code.max_locals)
}

/// The code of a method that isn't foreign already for what stands around its code.
fn decodable<'b, 'a>(method: &'b MethodRow<'a>) -> Option<&'b CodeRow<'a>>
    ensures { option_map (λ code. code_view code.now) result ≡ decodable (method_view method.now) }
{
    if !is_plain(method.access) {
        return None;
    }
    let code = method.code.as_ref()?;
    let parameters = known_parameters(method.desc)?;
    if !has_room(parameters, code) {
        return None;
    }
    Some(code)
}

/// Decodes a code. It has at most 65,535 bytes, and lies in a file of less than 2^63.
fn coded(alloc: Global, row: &CodeRow<'_>, pool: &Pool<'_>) -> Result<Coded, ClassFault>
    requires { LiesWithin (2 ^ 63) (code_view row.now) }
    ensures coded { IfOk result (IsCoded pool.now (code_of row.now)) }
    ensures fault { IfErr result (IsCodeFault pool.now (code_of row.now)) }
{
    match decode(alloc, row, pool) {
        Ok(coded) => Ok(coded),
        Err(CodeFault::At { kind, at }) => Err(ClassFault::At { kind, at }),
        Err(CodeFault::NoMemory) => Err(ClassFault::NoMemory),
    }
}

/// What a method does, in a class file with this pool.
fn body_of(
    alloc: Global,
    pool: &Pool<'_>,
    method: &MethodRow<'_>,
) -> Result<Option<Body>, ClassFault>
    requires { HasCodeWithin (2 ^ 63) (method_view method.now) }
    ensures body { IfOk result (IsBody pool.now (method_view method.now)) }
    ensures fault { IfErr result (IsMethodFault pool.now (method_view method.now)) }
{
    let Some(row) = decodable(method) else {
        return Ok(None);
    };
    match coded(alloc, row, pool)? {
        Coded::Decoded(code) => Ok(Some(Body {
            max_stack: row.max_stack,
            max_locals: row.max_locals,
            code,
        })),
        Coded::Foreign => Ok(None),
    }
}

/// What each of these methods does, or the fault of the first whose code has one.
#[tactic(auto, using(crate::proofs::Files::none_first, crate::proofs::Files::one_more, crate::proofs::Files::next_at_fault, crate::proofs::Files::all_there, crate::proofs::Files::of_row))]
pub(crate) fn bodies_of(
    alloc: Global,
    pool: &Pool<'_>,
    methods: &[MethodRow<'_>],
) -> Result<Bodies, ClassFault>
    requires { All (HasCodeWithin (2 ^ 63)) (map method_view methods.now) }
    ensures bodies { IfOk result (AreBodies pool.now (map method_view methods.now)) }
    ensures fault { IfErr result (AreAtFault pool.now (map method_view methods.now)) }
{
    let mut rows = Vec::new(alloc);
    for method in methods {
        let body = body_of(alloc, pool, method)?;
        rows.push(body)?;
    }
    Ok(Bodies { rows })
}
