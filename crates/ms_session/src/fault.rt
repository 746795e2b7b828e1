ghost use Rattle.std.specs.Prelude.{◌≡◌, IfOk};
ghost use Rattle.ms_session.specs.Faults as faults;

use ms_command::Reply;
use ms_pool::ClassKind;
use ms_program::FileFault;
use ms_words::{Name, NoMemory};
use std::alloc::Global;

/// The name of a kind of fault.
fn kind_name(kind: ClassKind) -> &'static [u8]
    ensures { result.now ≡ faults.kind_name kind }
{
    match kind {
        ClassKind::Short => b"Short",
        ClassKind::Magic => b"Magic",
        ClassKind::Version => b"Version",
        ClassKind::Pool => b"Pool",
        ClassKind::Index => b"Index",
        ClassKind::Shape => b"Shape",
        ClassKind::Super => b"Super",
        ClassKind::Duplicate => b"Duplicate",
        ClassKind::Trailing => b"Trailing",
        ClassKind::Cut => b"Cut",
        ClassKind::Target => b"Target",
        ClassKind::Switch => b"Switch",
    }
}

/// The reply to a file that has this first fault.
pub fn fault_reply(alloc: Global, fault: FileFault) -> Result<Reply, NoMemory>
    ensures { IfOk result (λ reply. reply ≡ faults.fault_reply fault) }
{
    let kind = Name::of(alloc, kind_name(fault.kind))?;
    Ok(Reply::ClassFault { kind, at: fault.at })
}
