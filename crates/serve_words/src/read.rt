//! What the words ask for.
ghost use Rattle.std.specs.Prelude.{◌≡◌, IfErr, IfOk, map, string_bytes};
ghost use Rattle.clap.specs.Simple.{subcommand_rows_of};
ghost use Rattle.serve_words.specs.Help.{IsTrueOf};
ghost use Rattle.serve_words.specs.Options.{AreTaken, AskFor, IsRequestOf, MeetsOne};
ghost use Rattle.serve_words.specs.declared.request.NoRequest.TheVariants.{NoMemory};

use crate::command::command;
use crate::given::{filter_words, serve_words};
use crate::request::{NoRequest, Request};
use clap::ArgMatches;
use clap::error::ErrorKind;
use std::alloc::{AllocError, Global};

/// What the subcommand that was met asks for.
fn request_of<'a>(alloc: Global, matches: &ArgMatches<'a>) -> Result<Request<'a>, AllocError>
    requires { MeetsOne (subcommand_rows_of matches.now) }
    ensures { IfOk result (IsRequestOf (subcommand_rows_of matches.now)) }
{
    match matches.subcommand() {
        Some(("filter", inner)) => Ok(Request::Filter(filter_words(inner))),
        Some(("serve", inner)) => Ok(Request::Serve(serve_words(alloc, inner)?)),
        Some(("replay", _)) => Ok(Request::Replay),
        _ => unreachable!(),
    }
}

/// Reads the words behind the program's name.
pub fn read_words(alloc: Global, words: &[String]) -> Result<Request<'_>, NoRequest>
    ensures request { IfOk result (AskFor (map string_bytes words.now)) }
    ensures help { IfErr result (IsTrueOf (map string_bytes words.now)) }
    ensures refusal { IfErr result (λ why. AreTaken (map string_bytes words.now) → why ≡ NoMemory) }
{
    let error = match command(alloc)?.try_get_matches_from(words) {
        Ok(matches) => return Ok(request_of(alloc, &matches)?),
        Err(error) => error,
    };
    if error.kind() == ErrorKind::OutOfMemory {
        return Err(NoRequest::NoMemory);
    }
    let text = error.to_string(alloc)?;
    if text.is_empty() {
        return Err(NoRequest::NoMemory);
    }
    if error.use_stderr() {
        Err(NoRequest::Wrong(text))
    } else {
        Err(NoRequest::Help(text))
    }
}
