//! The message for a refused run.

ghost use Rattle.std.specs.Prelude.{◌≡◌, Some, option_map};
ghost use Rattle.std.specs.Fmt.{DisplaysOnOk};
ghost use Rattle.lbk_cmd.specs.Message.{at_byte, file_text, folder_of, input_text, invalid_text, limit_of};
ghost use Rattle.lbk_cmd.specs.Message.{message_text, name_in, named_folder, named_text, not_utf8_text, of_call, output_text};
ghost use Rattle.lbk_cmd.specs.Message.{paragraph_text, passage_text, text_of_input, text_of_name, than_limit};
ghost use Rattle.lbk_cmd.specs.Message.{too_long_text, unloaded_text, unpublished_text, unread_text, unwritten_text};

use super::ending::RunFault;
use super::faults::CmdFault;
use super::parts_of_messages::{Encoding, FolderAdvice, Input, Name, Reason, Why};
use lbk_args::{DEFAULT_LIMIT, Engine, FileName, FileNames, PropertyValues};
use lbk_feed::TEXT_MAX;
use lbk_files::{CellsFault, ClaimCause, NamedFault};
use lbk_notation::ReplayFault;
use lbk_passage::{LIMIT_MAX, PassageFault};
use lbk_ucd::{Which, remedy_text};
use std::fmt;

/// Who asked for a run. It decides how messages name files and devices.
#[derive(Clone, Copy)]
pub enum Caller<'a> {
    /// A call of a library, over any files, reader and writer.
    Call,
    /// The program without arguments, which uses the sample files.
    NoWords,
    /// The program with arguments, which ask for this.
    Words {
        engine: Engine,
        values: PropertyValues<'a>,
    },
}

/// A fault in one line, with what to do, and in a form that editors can jump to.
///
/// Lines of files count from 1, bytes of the text from 0.
#[derive(Clone, Copy)]
pub struct Message<'a> {
    pub fault: RunFault,
    pub caller: Caller<'a>,
    /// The operand that names the text; none means standard input.
    pub text: Option<&'a str>,
    /// Why a file or a device failed.
    pub reason: Option<Reason>,
    /// The encoding that an ill-formed text looks like.
    pub looks_like: Option<Encoding>,
}

impl<'a> fmt::Display for Message<'a> {
    ghost output = { λ m. message_text m };

    fn fmt<W: fmt::Write>(&self, f: &mut fmt::Formatter<W>) -> fmt::Result {
        match self.fault {
            RunFault::Open | RunFault::Replay(ReplayFault::Read) => self.unread(f),
            RunFault::Load(which) => self.unloaded(f, which),
            RunFault::Claim(which, cause) => self.unpublished(f, which, cause),
            RunFault::Tables(fault) => self.named(CellsFault::Tables(fault), fault.file).fmt(f),
            RunFault::Cmd(CmdFault::Passage(fault)) => self.passage_fault(f, fault),
            RunFault::Replay(ReplayFault::StreamTooLong) => self.too_long(f),
            RunFault::Cmd(CmdFault::Write) | RunFault::Replay(ReplayFault::Write) => self.unwritten(
                f,
            ),
            RunFault::Cmd(CmdFault::Memory)
            | RunFault::Replay(ReplayFault::Memory)
            | RunFault::Memory => f.write_str("out of memory"),
        }
    }
}

impl<'a> Message<'a> {
    /// The message for a library call.
    pub fn of_call(fault: RunFault) -> Message<'a>
        ensures { result ≡ of_call fault }
    {
        Message {
            fault,
            caller: Caller::Call,
            text: None,
            reason: None,
            looks_like: None,
        }
    }

    /// A fault of the files, after the caller's name for its file.
    fn named(&self, fault: CellsFault, which: Which) -> NamedFault<Name<'a>>
        ensures fault { result.fault ≡ fault }
        ensures name { text_of_name result.name ≡ file_text self.now.caller which }
    {
        let name = match self.caller {
            Caller::Call => Name::Plain(which),
            Caller::NoWords => Name::Sample(which),
            Caller::Words { values, .. } => named(values, which),
        };
        NamedFault { fault, name }
    }

    /// The folder of a property file, if the arguments name one.
    fn folder(&self, which: Which) -> Option<&'a str>
        ensures { option_map (λ folder. folder.now) result ≡ folder_of self.now.caller which }
    {
        match self.caller {
            Caller::Words { values, .. } => folder(values, which),
            Caller::Call | Caller::NoWords => None,
        }
    }

    fn input(&self) -> Input<'a>
        ensures { text_of_input result ≡ input_text self.now.caller self.now.text }
    {
        match (self.text, self.caller) {
            (None, Caller::Call) => Input::OfCall,
            (None, _) => Input::Standard,
            (Some(name), _) => Input::of_operand(name),
        }
    }

    fn output(&self) -> &'static str
        ensures { result.now ≡ output_text self.now.caller }
    {
        match self.caller {
            Caller::Call => "the output",
            Caller::NoWords | Caller::Words { .. } => "standard output",
        }
    }

    fn unloaded<W: fmt::Write>(&self, f: &mut fmt::Formatter<W>, which: Which) -> fmt::Result
        ensures { DisplaysOnOk W.write_str_gives f.old result (unloaded_text self.now which) f.new }
    {
        let fault = self.named(CellsFault::Load(which), which);
        let advice = FolderAdvice(self.folder(which));
        write!(f, "{fault}{}{advice}", Why(self.reason))
    }

    fn unpublished<W: fmt::Write>(
        &self,
        f: &mut fmt::Formatter<W>,
        which: Which,
        cause: ClaimCause,
    ) -> fmt::Result
        ensures { DisplaysOnOk W.write_str_gives f.old result (Some (unpublished_text self.now which cause)) f.new }
    {
        let fault = self.named(CellsFault::Claim(which, cause), which);
        write!(f, "{fault}")?;
        let Caller::Words { .. } = self.caller else {
            return Ok(());
        };
        match cause {
            ClaimCause::Changed => {
                f.write_str("; download it again, or pass all four files by their own options")
            }
            ClaimCause::Title | ClaimCause::Version(_) => write!(f, "; {}", remedy_text()),
        }
    }

    fn unwritten<W: fmt::Write>(&self, f: &mut fmt::Formatter<W>) -> fmt::Result
        ensures { DisplaysOnOk W.write_str_gives f.old result (unwritten_text self.now) f.new }
    {
        write!(
            f,
            "{}: cannot be written{}",
            self.output(),
            Why(self.reason)
        )
    }

    fn unread<W: fmt::Write>(&self, f: &mut fmt::Formatter<W>) -> fmt::Result
        ensures { DisplaysOnOk W.write_str_gives f.old result (unread_text self.now) f.new }
    {
        write!(f, "{}: cannot be read{}", self.input(), Why(self.reason))
    }

    fn too_long<W: fmt::Write>(&self, f: &mut fmt::Formatter<W>) -> fmt::Result
        ensures { DisplaysOnOk W.write_str_gives f.old result (Some (too_long_text self.now)) f.new }
    {
        write!(f, "{}: more than {TEXT_MAX} bytes", self.input())
    }

    fn passage_fault<W: fmt::Write>(
        &self,
        f: &mut fmt::Formatter<W>,
        fault: PassageFault,
    ) -> fmt::Result
        ensures { DisplaysOnOk W.write_str_gives f.old result (passage_text self.now fault) f.new }
    {
        match fault {
            PassageFault::Limit => {
                write!(f, "the limit of a paragraph must be 1 to {LIMIT_MAX} bytes")
            }
            PassageFault::Memory => f.write_str("out of memory"),
            PassageFault::Read => self.unread(f),
            PassageFault::NotUtf8 { at } => self.not_utf8(f, at),
            PassageFault::TextTooLong => self.too_long(f),
            PassageFault::ParagraphTooLong { start } => self.paragraph_too_long(f, start),
            PassageFault::Spent => f.write_str("an earlier call failed"),
        }
    }

    fn not_utf8<W: fmt::Write>(&self, f: &mut fmt::Formatter<W>, at: u64) -> fmt::Result
        ensures { DisplaysOnOk W.write_str_gives f.old result (Some (not_utf8_text self.now at)) f.new }
    {
        self.at_byte(f, at)?;
        invalid_utf8(f, self.looks_like)
    }

    fn paragraph_too_long<W: fmt::Write>(
        &self,
        f: &mut fmt::Formatter<W>,
        start: u64,
    ) -> fmt::Result
        ensures { DisplaysOnOk W.write_str_gives f.old result (Some (paragraph_text self.now start)) f.new }
    {
        self.at_byte(f, start)?;
        f.write_str("the paragraph that starts here has more ")?;
        than_limit(f, self.limit())
    }

    fn at_byte<W: fmt::Write>(&self, f: &mut fmt::Formatter<W>, at: u64) -> fmt::Result
        ensures { DisplaysOnOk W.write_str_gives f.old result (Some (at_byte self.now at)) f.new }
    {
        write!(f, "{}: byte {at}: ", self.input())
    }

    /// The most bytes of a paragraph, if the caller is the program.
    fn limit(&self) -> Option<u32>
        ensures { result ≡ limit_of self.now.caller }
    {
        match self.caller {
            Caller::Call => None,
            Caller::NoWords => Some(DEFAULT_LIMIT),
            Caller::Words { engine, .. } => match engine {
                Engine::Mark { limit }
                | Engine::Show { limit }
                | Engine::Segment { limit }
                | Engine::Chunk { limit, .. } => Some(limit),
                Engine::Replay { .. } => None,
            },
        }
    }
}

/// The message for ill-formed bytes, and what to do with a text that may have another encoding.
fn invalid_utf8<W: fmt::Write>(
    f: &mut fmt::Formatter<W>,
    looks_like: Option<Encoding>,
) -> fmt::Result
    ensures { DisplaysOnOk W.write_str_gives f.old result (Some (invalid_text looks_like)) f.new }
{
    f.write_str("invalid UTF-8")?;
    match looks_like {
        None => Ok(()),
        Some(Encoding::Utf16) => {
            f.write_str("; it looks like UTF-16: convert it by iconv -f UTF-16 -t UTF-8")
        }
        Some(Encoding::Latin1) => {
            f.write_str("; if it is Latin-1, convert it by iconv -f ISO-8859-1 -t UTF-8")
        }
    }
}

/// The limit of a paragraph that is too long.
fn than_limit<W: fmt::Write>(f: &mut fmt::Formatter<W>, limit: Option<u32>) -> fmt::Result
    ensures { DisplaysOnOk W.write_str_gives f.old result (Some (than_limit limit)) f.new }
{
    match limit {
        Some(limit) if limit >= LIMIT_MAX => write!(f, "than {limit} bytes, the greatest limit"),
        Some(limit) => write!(f, "than {limit} bytes; --limit allows up to {LIMIT_MAX}"),
        None => f.write_str("bytes than the limit"),
    }
}

/// A property file, by the arguments' name for it. Built-in values have no files.
fn named<'a>(values: PropertyValues<'a>, which: Which) -> Name<'a>
    ensures { text_of_name result ≡ named_text values.entry which }
{
    match values {
        PropertyValues::BuiltIn => Name::Plain(which),
        PropertyValues::Files(files) => match name_in(files, which) {
            FileName::Given(name) => Name::Given(name),
            FileName::InFolder(folder) => Name::InFolder(folder, which),
        },
    }
}

/// The folder of a property file, if the arguments name one.
fn folder<'a>(values: PropertyValues<'a>, which: Which) -> Option<&'a str>
    ensures { option_map (λ folder. folder.now) result ≡ named_folder values.entry which }
{
    match values {
        PropertyValues::BuiltIn => None,
        PropertyValues::Files(files) => match name_in(files, which) {
            FileName::InFolder(folder) => Some(folder),
            FileName::Given(_) => None,
        },
    }
}

fn name_in<'a>(files: FileNames<'a>, which: Which) -> FileName<'a>
    ensures { result ≡ name_in files.entry which }
{
    match which {
        Which::LineBreak => files.line_break,
        Which::EastAsianWidth => files.east_asian,
        Which::Category => files.category,
        Which::Emoji => files.emoji,
    }
}
