// The words by which a daemon is asked to end.
ghost use Rattle.std.specs.Prelude.{◌≡◌, ◌⊎◌, None, map, IfSome};
ghost use Rattle.std.specs.Option.{option_map};
ghost use Rattle.std.specs.Process.{exit_status};
ghost use Rattle.std.specs.String.{string_bytes};
ghost use Rattle.command_line.specs.Words.{accepted};
ghost use Rattle.daemon_ends.specs.Stop.{path_given, stopped_at};

use command_line::PATH_MOST;
use std::net::Net;
use std::process::ExitCode;
use unix_links::ask_to_stop;

// The status if no daemon could be asked to stop.
const NOBODY: u8 = 3;

/// The path that the words of `stop` name. All other words, also refused ones, are left to the top
/// call.
pub fn read_stop(words: &[String]) -> Option<&str>
    ensures path { option_map (λ path. path.now) result ≡ stopped_at (map string_bytes words.now) }
    ensures other { IfSome result (λ _. accepted (map string_bytes words.now) ≡ None) }
{
    let (verb, options) = words.split_first()?;
    if verb.as_str() != "stop" {
        return None;
    }
    let (word, more) = options.split_first()?;
    match more.split_first() {
        None => match word.split_once('=') {
            Some((name, path)) => read_option(name, path),
            None => None,
        },
        Some((path, [])) if !path.starts_with('-') => read_option(word, path),
        Some(_) => None,
    }
}

// The path in the option of this name with this value.
fn read_option<'a>(name: &str, value: &'a str) -> Option<&'a str>
    ensures { option_map (λ path. path.now) result ≡ path_given name.now value.now }
{
    if name != "--socket" || value.is_empty() || value.len() > PATH_MOST {
        return None;
    }
    Some(value)
}

/// Asks the daemon at this path to end, and waits until it has. If no daemon can be asked, standard
/// error says why.
pub fn stop<R: Net + AllocGlobal + Eprint>(rt: &R, path: &str) -> ExitCode
    ensures { (exit_status result ≡ 0) ⊎ (exit_status result ≡ 3) }
{
    match ask_to_stop(rt, path) {
        Ok(()) => ExitCode::SUCCESS,
        Err(error) => {
            let _ = eprintln!(rt; "tabrmd: can't stop a daemon at {path}: {error}");
            ExitCode::from(NOBODY)
        }
    }
}
