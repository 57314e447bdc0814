//! The name of a text in the output: in a line before it, or in its objects.

ghost use Rattle.std.specs.Prelude.{◌≡◌, IfOk, option_map, string_bytes};
ghost use Rattle.lbk_cmd.specs.Run.{failed_writes_with};
ghost use Rattle.lbk_cmd.specs.Titles.{IsTitleWritten, file_of, has_title, title};

use super::faults::CmdFault;
use super::parts_of_messages::Input;
use lbk_args::Engine;
use lbk_feed::{Sink, write_all};
use std::alloc::{AllocError, Global};

/// Whether the line with the name comes before the output of a text: objects of `chunk` have the name in them.
pub(crate) fn has_title(names: bool, engine: &Engine) -> bool
    ensures { result ≡ has_title names engine.now }
{
    match engine {
        Engine::Chunk { texts, .. } => names && !*texts,
        _ => names,
    }
}

/// The name of a text for its objects.
pub(crate) fn file_of<'a>(names: bool, name: &'a str) -> Option<&'a str>
    ensures { option_map (λ name. name.now) result ≡ file_of names name.entry.now }
{
    if names { Some(name) } else { None }
}

/// Writes the line with the name of a text.
pub(crate) fn write_title<W: Sink>(
    alloc: Global,
    name: &str,
    writer: &mut W,
) -> Result<(), CmdFault>
    ensures written { IsTitleWritten name.now (W.written writer.old) (W.written writer.new) result }
    ensures failures { W.failure_count writer.new ≡ failed_writes_with (W.failure_count writer.old) result }
{
    let Ok(line) = title(alloc, name) else {
        return Err(CmdFault::Memory);
    };
    match write_all(writer, line.as_bytes()) {
        Ok(()) => Ok(()),
        Err(_) => Err(CmdFault::Write),
    }
}

/// The line.
fn title(alloc: Global, name: &str) -> Result<String, AllocError>
    ensures { IfOk result (λ line. string_bytes line ≡ title name.now) }
{
    let name = Input::of_operand(name);
    format!(in alloc; "==> {name} <==\n")
}
