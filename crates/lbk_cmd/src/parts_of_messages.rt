//! The parts of messages.

ghost use Rattle.std.specs.Prelude.{◌≡◌, Some, option_map};
ghost use Rattle.lbk_cmd.specs.Message.{advice_of, advice_of_folder, operand_text, text_of_input, text_of_name};
ghost use Rattle.lbk_cmd.specs.Message.{why_text};

use lbk_args::OneLine;
use lbk_files::{file_name, name_in_database};
use lbk_ucd::Which;
use std::fmt;
use std::io::ErrorKind;

/// Why a file or a device failed.
#[derive(Clone, Copy, Debug, PartialEq, Eq)]
pub enum Reason {
    /// The system's reason.
    System(ErrorKind),
    /// The text is also the output, and would grow while it is read.
    IsOutput,
}

/// An encoding that a text may have instead of UTF-8.
#[derive(Clone, Copy, Debug, PartialEq, Eq)]
pub enum Encoding {
    Utf16,
    /// ISO 8859-1.
    Latin1,
}

/// The reason after a colon, if there is one.
#[derive(Clone, Copy)]
pub(crate) struct Why(pub(crate) Option<Reason>);

impl fmt::Display for Why {
    ghost output = { λ why. why_text why.0 };

    fn fmt<W: fmt::Write>(&self, f: &mut fmt::Formatter<W>) -> fmt::Result {
        match self.0 {
            None => Ok(()),
            Some(Reason::IsOutput) => f.write_str(": input file is output file"),
            Some(Reason::System(ErrorKind::Other | ErrorKind::Uncategorized)) => Ok(()),
            Some(Reason::System(ErrorKind::NotFound)) => f.write_str(": no such file"),
            Some(Reason::System(kind)) => write!(f, ": {kind}"),
        }
    }
}

/// What to do if a file cannot be read, and it is in a folder.
#[derive(Clone, Copy)]
pub(crate) struct FolderAdvice<'a>(pub(crate) Option<&'a str>);

impl<'a> fmt::Display for FolderAdvice<'a> {
    ghost output = { λ advice. Some (advice_of (option_map (λ folder. folder.now) advice.0)) };

    fn fmt<W: fmt::Write>(&self, f: &mut fmt::Formatter<W>) -> fmt::Result {
        match self.0 {
            Some(folder) => f.write_str(advice_of_folder(folder)),
            None => Ok(()),
        }
    }
}

/// What to do if a file in a folder cannot be read.
fn advice_of_folder(folder: &str) -> &'static str
    ensures { result.now ≡ advice_of_folder folder.now }
{
    if folder.as_bytes().ends_with(b".zip") {
        "; unpack it, and pass the folder"
    } else {
        "; --unicode 15.0 needs no files"
    }
}

/// The name of a property file.
#[derive(Clone, Copy)]
pub(crate) enum Name<'a> {
    /// The name in the Unicode Character Database.
    Plain(Which),
    /// The name of a sample file.
    Sample(Which),
    /// The name in the arguments.
    Given(&'a str),
    /// The path of a file in a folder.
    InFolder(&'a str, Which),
}

impl<'a> fmt::Display for Name<'a> {
    ghost output = { λ name. Some (text_of_name name) };

    fn fmt<W: fmt::Write>(&self, f: &mut fmt::Formatter<W>) -> fmt::Result {
        match *self {
            Name::Plain(which) => f.write_str(file_name(which)),
            Name::Sample(which) => write!(f, "sample {}", file_name(which)),
            Name::Given(name) => write!(f, "{}", OneLine(name)),
            Name::InFolder(folder, which) => {
                write!(f, "{}/{}", OneLine(folder), name_in_database(which))
            }
        }
    }
}

/// The input of a run.
#[derive(Clone, Copy)]
pub(crate) enum Input<'a> {
    OfCall,
    Standard,
    Named(&'a str),
}

impl<'a> Input<'a> {
    /// The text that an operand names: `-` is standard input.
    pub(crate) fn of_operand(name: &'a str) -> Input<'a>
        ensures { text_of_input result ≡ operand_text name.entry.now }
    {
        match name {
            "-" => Input::Standard,
            name => Input::Named(name),
        }
    }
}

impl<'a> fmt::Display for Input<'a> {
    ghost output = { λ input. Some (text_of_input input) };

    fn fmt<W: fmt::Write>(&self, f: &mut fmt::Formatter<W>) -> fmt::Result {
        match *self {
            Input::OfCall => f.write_str("the input"),
            Input::Standard => f.write_str("standard input"),
            Input::Named(name) => write!(f, "{}", OneLine(name)),
        }
    }
}
