ghost use Rattle.std.specs.Prelude.{◌≡◌, ◌≤◌, ◌<◌, IfOk, IfSome, IsErr, IsOk, MatchResult, Ok, codes, length, if◌then◌else◌};
ghost use Rattle.std.specs.Option.{option_map};
ghost use Rattle.std.specs.Str.{bytes_eq};
ghost use Rattle.ms_classfile.specs.Found.{view};
ghost use Rattle.ms_classfile.specs.ThinFile.{Method};
ghost use Rattle.ms_classfile.specs.Reading.{thin_method};
ghost use Rattle.std.specs.List.{list_all};
ghost use Rattle.ms_session.specs.Commands.{Done, Stopped};
ghost use Rattle.ms_session.specs.Outside.{shelf_side, sink_side};
ghost use Rattle.ms_session.specs.Sessions.{IsShort, Leads, Prepared, PrepareStops, Says, answer_in};
ghost use Rattle.ms_command.specs.Commands.{IsInRange};
ghost use Rattle.ms_session.specs.Paths.{first_of};
ghost use Rattle.ms_session.specs.States as states;
ghost use Rattle.ms_session.specs.States.{class_named, new_state};
ghost use Rattle.ms_session.specs.Steps as steps;
ghost use Rattle.ms_program.specs.Reading.{first_fault};

use crate::entry::{explore_entry, report_entry};
use crate::fault::fault_reply;
use crate::fetching::{Fetched, ask};
use crate::known::Known;
use crate::names::one_name;
use crate::once::once;
use crate::output::{Output, write_output};
use crate::stop::Stop;
use ms_classfile::{ThinMethod, read_thin};
use ms_command::{Command, Reply};
use ms_outside::{Shelf, Sink};
use ms_program::first_fault;
use ms_words::{Kind, Kinds, Name, NoMemory};
use std::alloc::{AllocError, Global};
use std::marker::Model;

/// The most rows of a report, so that they can be counted. There are no more rows than inputs, which are
/// at most 256.
const MOST_ROWS: usize = 4_294_967_295;

/// A session: at most one class, the entry, the depth, and what is known of the entry's strings. It holds
/// the bytes of the class file, and no verdict and no input.
#[derive(Debug, Drop)]
pub struct Session {
    file: Option<Vec<u8>>,
    has_entry: bool,
    depth: u16,
    known: Known,
}

impl Model for Session {
    ghost use Rattle.ms_session.specs.Sessions.{IsSession, classes_in, entry_in};
    ghost use Rattle.ms_session.specs.States.{State};

    ghost Value = { State };

    ghost view = { λ session. record { classes = classes_in session.file; entry = entry_in session.has_entry session.file; depth = session.depth; known = session.known } };

    ghost invariant = { λ session. IsSession session.has_entry session.file session.depth session.known };
}

impl Session {
    /// A new session: no class, no entry, depth 16. It takes no memory.
    pub fn new(alloc: Global) -> Session
        ensures { result ≡ new_state }
    {
        Session {
            file: None,
            has_entry: false,
            depth: 16,
            known: Known::new(alloc),
        }
    }

    /// Runs a command: asks the shelf for the file that it names, changes the state, and writes its text to
    /// the sink. Where it stops, the sink has taken some first bytes of the text, perhaps none, and nothing
    /// else, and the session is given up.
    pub fn command<F: Shelf, K: Sink>(
        &mut self,
        alloc: Global,
        command: &Command,
        shelf: &mut F,
        sink: &mut K,
    ) -> Result<(), Stop>
        requires { IsInRange command.now }
        ensures { MatchResult result
            (λ _. Done command.now self.old self.new (shelf_side (F.files shelf.old) (F.counts shelf.old) (F.asked shelf.old)) (shelf_side (F.files shelf.new) (F.counts shelf.new) (F.asked shelf.new)) (sink_side (K.taken sink.old) (K.faults sink.old)) (sink_side (K.taken sink.new) (K.faults sink.new)))
            (λ stop. Stopped stop command.now self.old (shelf_side (F.files shelf.old) (F.counts shelf.old) (F.asked shelf.old)) (shelf_side (F.files shelf.new) (F.counts shelf.new) (F.asked shelf.new)) (sink_side (K.taken sink.old) (K.faults sink.old)) (sink_side (K.taken sink.new) (K.faults sink.new))) }
    {
        let output = match self.prepare(alloc, command, shelf) {
            Ok(output) => output,
            Err(stop) => return Err(stop),
        };
        write_output(alloc, &output, sink)
    }

    /// What a command is about to write. It asks the shelf, and changes the state.
    fn prepare<F: Shelf>(
        &mut self,
        alloc: Global,
        command: &Command,
        shelf: &mut F,
    ) -> Result<Output, Stop>
        requires { IsInRange command.now }
        ensures { MatchResult result
            (λ output. Prepared command.now self.old self.new output (shelf_side (F.files shelf.old) (F.counts shelf.old) (F.asked shelf.old)) (shelf_side (F.files shelf.new) (F.counts shelf.new) (F.asked shelf.new)))
            (λ stop. PrepareStops stop command.now (shelf_side (F.files shelf.old) (F.counts shelf.old) (F.asked shelf.old)) (shelf_side (F.files shelf.new) (F.counts shelf.new) (F.asked shelf.new))) }
    {
        match command {
            Command::Once {
                file,
                name,
                desc,
                words,
            } => {
                let found = ask(alloc, file, shelf)?;
                replied(once(alloc, file, name, desc, words, found))
            }
            Command::Class { file } => {
                let found = ask(alloc, file, shelf)?;
                replied(self.add_class(alloc, file, found))
            }
            Command::Nothing => Ok(Output::Nothing),
            Command::Entry { class, name, desc } => {
                replied(self.set_entry(alloc, class, name, desc))
            }
            Command::Depth(depth) => Ok(Output::Reply(self.set_depth(*depth))),
            Command::Explore(most) => replied(self.explore(alloc, *most)),
            Command::Report => kept(self.report(alloc)),
            Command::Quit => Ok(Output::Reply(Reply::Quitting)),
        }
    }

    /// Sets the depth, 0 to 256.
    fn set_depth(&mut self, depth: u16) -> Reply
        requires { depth ≤ 256 }
        ensures { Says (steps.replied (record self.old { depth = depth }) (Reply.DepthSet depth)) result self.new }
    {
        self.depth = depth;
        Reply::DepthSet { depth }
    }

    /// Adds the class of a file, by what the shelf answered.
    fn add_class(&mut self, alloc: Global, file: &Name, found: Fetched) -> Result<Reply, NoMemory>
        ensures { IfOk result (λ reply. Says (steps.class_next self.old file.now (answer_in found)) reply self.new) }
    {
        match found {
            Fetched::Absent => {
                let file = Name::of(alloc, file.bytes())?;
                Ok(Reply::Absent { file })
            }
            Fetched::TooLong => {
                let file = Name::of(alloc, file.bytes())?;
                Ok(Reply::TooLong { file })
            }
            Fetched::Bytes(bytes) => self.take_file(alloc, bytes),
        }
    }

    /// Adds the class of a file of these bytes, where it has no fault.
    fn take_file(&mut self, alloc: Global, bytes: Vec<u8>) -> Result<Reply, NoMemory>
        ensures { IfOk result (λ reply. Says (steps.file_next self.old (first_fault bytes.items) (thin_method bytes.items)) reply self.new) }
    {
        match first_fault(alloc, bytes.as_slice())? {
            Some(fault) => fault_reply(alloc, fault),
            None => self.take_class(alloc, bytes),
        }
    }

    /// Adds the class that these bytes are.
    fn take_class(&mut self, alloc: Global, bytes: Vec<u8>) -> Result<Reply, NoMemory>
        ensures { IfOk result (λ reply. Says (steps.class_read self.old (thin_method bytes.items)) reply self.new) }
    {
        let Some(class) = class_name(alloc, bytes.as_slice())? else {
            return Ok(Reply::NotBuilt);
        };
        if self.file.is_some() {
            return self.known_class(alloc, class);
        }
        self.file = Some(bytes);
        Ok(Reply::ClassAdded {
            class,
            verdicts: 0,
            segments: 0,
        })
    }

    /// The reply where a class of this name is added and one is present: they have one name, or a second
    /// class isn't built.
    fn known_class(&self, alloc: Global, class: Name) -> Result<Reply, NoMemory>
        requires { 0 < length self.now.classes }
        ensures { IfOk result (λ reply. IfSome (first_of self.now.classes) (λ present. reply ≡ (if bytes_eq present.class class then Reply.Known class else Reply.NotBuilt))) }
    {
        let Some(bytes) = &self.file else {
            unreachable!()
        };
        let Some(present) = read_thin(alloc, bytes.as_slice())? else {
            unreachable!()
        };
        if present.class == class.bytes() {
            return Ok(Reply::Known { class });
        }
        Ok(Reply::NotBuilt)
    }

    /// Sets the entry, and forgets what is known.
    fn set_entry(
        &mut self,
        alloc: Global,
        class: &Name,
        name: &Name,
        desc: &Name,
    ) -> Result<Reply, NoMemory>
        ensures { IfOk result (λ reply. Says (steps.entry_next self.old class.now name.now desc.now (class_named self.old.classes class.now)) reply self.new) }
    {
        let Some(bytes) = &self.file else {
            return unknown(alloc, class);
        };
        let Some(method) = read_thin(alloc, bytes.as_slice())? else {
            unreachable!()
        };
        if method.class != class.bytes() {
            let reply = unknown(alloc, class)?;
            return Ok(reply);
        }
        if !is_entry(&method, name.bytes(), desc.bytes()) {
            return Ok(Reply::EntryMissing);
        }
        if !are_boolean(method.kinds) {
            return Ok(Reply::NotBuilt);
        }
        let entry = entry_name(alloc, &method)?;
        self.has_entry = true;
        self.known = Known::new(alloc);
        Ok(Reply::EntrySet { entry })
    }

    /// Settles the first strings that need it, up to `most`.
    fn explore(&mut self, alloc: Global, most: u32) -> Result<Reply, NoMemory>
        ensures { IfOk result (λ reply. Says (steps.explore_next self.old most self.old.entry) reply self.new) }
    {
        if !self.has_entry {
            return Ok(Reply::NoEntry);
        }
        let Some(bytes) = &self.file else {
            unreachable!()
        };
        let Some(method) = read_thin(alloc, bytes.as_slice())? else {
            unreachable!()
        };
        let explored = explore_entry(alloc, &method, self.depth, most, &mut self.known)?;
        let how = how_far(alloc, explored.unfinished)?;
        Ok(Reply::Explored {
            settled: explored.settled,
            asks: explored.asks,
            how,
        })
    }

    /// The report, or that a string still needs settling.
    fn report(&self, alloc: Global) -> Result<Output, NoMemory>
        ensures leads { IfOk result (λ output. Leads (steps.report_next self.now self.now.entry) output self.now) }
        ensures short { IfOk result IsShort }
    {
        if !self.has_entry {
            return Ok(Output::Reply(Reply::NoEntry));
        }
        let Some(bytes) = &self.file else {
            unreachable!()
        };
        let Some(method) = read_thin(alloc, bytes.as_slice())? else {
            unreachable!()
        };
        let found = report_entry(alloc, &method, self.depth, &self.known)?;
        let Some(rows) = found else {
            return Ok(Output::Reply(Reply::Unfinished));
        };
        if rows.len() > MOST_ROWS {
            return Err(AllocError);
        }
        let names = one_name(alloc, method.class)?;
        Ok(Output::Report { names, rows })
    }
}

/// A reply, or want of memory.
fn replied(reply: Result<Reply, NoMemory>) -> Result<Output, Stop>
    ensures { MatchResult result (λ output. IfOk reply (λ r. output ≡ Output.Reply r) × IsOk reply) (λ stop. (stop ≡ Stop.NoMemory) × IsErr reply) }
{
    match reply {
        Ok(reply) => Ok(Output::Reply(reply)),
        Err(_) => Err(Stop::NoMemory),
    }
}

/// What is to be written, or want of memory.
fn kept(output: Result<Output, NoMemory>) -> Result<Output, Stop>
    ensures { MatchResult result (λ out. output ≡ Ok out) (λ stop. (stop ≡ Stop.NoMemory) × IsErr output) }
{
    match output {
        Ok(output) => Ok(output),
        Err(_) => Err(Stop::NoMemory),
    }
}

/// The name of the class of a thin file.
fn class_name(alloc: Global, bytes: &[u8]) -> Result<Option<Name>, NoMemory>
    ensures { IfOk result (λ found. found ≡ option_map (λ (method : Method). method.class) (thin_method bytes.now)) }
{
    let Some(method) = read_thin(alloc, bytes)? else {
        return Ok(None);
    };
    Ok(Some(Name::of(alloc, method.class)?))
}

/// The reply where no class has this name.
fn unknown(alloc: Global, class: &Name) -> Result<Reply, NoMemory>
    ensures { IfOk result (λ reply. reply ≡ Reply.Unknown class.now) }
{
    let class = Name::of(alloc, class.bytes())?;
    Ok(Reply::Unknown { class })
}

/// Whether the method has this name and descriptor, and is no initialiser.
fn is_entry(method: &ThinMethod<'_>, name: &[u8], desc: &[u8]) -> bool
    ensures { result ≡ steps.is_entry (view method.now) name.now desc.now }
{
    method.name == name && method.descriptor == desc && name != b"<clinit>".as_slice()
}

/// Whether each kind is boolean.
fn are_boolean(kinds: Kinds) -> bool
    ensures { result ≡ list_all states.is_boolean kinds }
{
    for kind in kinds.get() {
        if !is_boolean(*kind) {
            return false;
        }
    }
    true
}

fn is_boolean(kind: Kind) -> bool
    ensures { result ≡ states.is_boolean kind }
{
    match kind {
        Kind::Z => true,
        Kind::B | Kind::C | Kind::S | Kind::I => false,
    }
}

/// CLASS.NAMEDESC.
fn entry_name(alloc: Global, method: &ThinMethod<'_>) -> Result<Name, NoMemory>
    ensures { IfOk result (λ name. name ≡ states.entry_name (view method.now)) }
{
    let mut text = Vec::from_slice(alloc, method.class)?;
    text.push(b'.')?;
    text.extend_from_slice(method.name)?;
    text.extend_from_slice(method.descriptor)?;
    Name::of(alloc, text.as_slice())
}

/// Whether a string still needs settling, in words.
fn how_far(alloc: Global, unfinished: bool) -> Result<Name, NoMemory>
    ensures { IfOk result (λ how. how ≡ (if unfinished then codes "unfinished" else codes "finished")) }
{
    if unfinished {
        Name::of(alloc, b"unfinished")
    } else {
        Name::of(alloc, b"finished")
    }
}
