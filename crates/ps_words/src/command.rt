ghost use Rattle.std.specs.Prelude.{◌≡◌, false, IfOk};
ghost use Rattle.clap.specs.Words.{app_of, rule_of};
ghost use Rattle.ps_words.specs.Serve.{file_rule, http_rule, serve_app, tick_rule};

use clap::{Arg, ArgAction, Command, value_parser};
use std::alloc::{AllocError, Global};

/// `--http PORT`.
fn http_option<'a>(alloc: Global) -> Arg<'a>
    ensures rule { rule_of result ≡ http_rule }
    ensures own { result.global ≡ false }
{
    Arg::new(alloc, "http")
        .long("http")
        .required(true)
        .action(ArgAction::Set)
        .value_parser(value_parser!(u16).range(1..))
}

/// `--tick MS`, in milliseconds. It is read, and has no effect yet.
fn tick_option<'a>(alloc: Global) -> Arg<'a>
    ensures rule { rule_of result ≡ tick_rule }
    ensures own { result.global ≡ false }
{
    Arg::new(alloc, "tick")
        .long("tick")
        .action(ArgAction::Set)
        .value_parser(value_parser!(u32).range(10..=60000))
}

/// `FILE`.
fn file_argument<'a>(alloc: Global) -> Arg<'a>
    ensures rule { rule_of result ≡ file_rule }
    ensures own { result.global ≡ false }
{
    Arg::new(alloc, "file")
        .required(true)
        .action(ArgAction::Set)
}

/// The words of `serve`, as the parser's command. It has no option for help.
pub(crate) fn serve_command<'a>(alloc: Global) -> Result<Command<'a>, AllocError>
    ensures { IfOk result (λ command. app_of command ≡ serve_app) }
{
    let http = http_option(alloc);
    let tick = tick_option(alloc);
    let file = file_argument(alloc);
    let start = Command::new(alloc, "serve").disable_help_flag(true);
    let with_http = start.arg(http)?;
    let with_tick = with_http.arg(tick)?;
    with_tick.arg(file)
}
