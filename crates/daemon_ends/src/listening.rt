// What listens at the socket that the words name.
ghost use Rattle.std.specs.Prelude.{◌≡◌, map, IfOk, IfSome, IsSomeAnd};
ghost use Rattle.std.specs.Prelude.{false, true};
ghost use Rattle.std.specs.String.{string_bytes};
ghost use Rattle.command_line.specs.Words.{IsServe, accepted};
ghost use Rattle.unix_links.specs.Listening.{new_listening};

use command_line::{Verb, read_words};
use std::fs::{File, Files};
use std::io;
use std::net::Net;
use unix_links::{Closer, UnixAcceptor};

/// An acceptor without a socket, and a closer that ends nothing.
pub fn unbound<'a, R: Files + Net>(rt: &'a R) -> (UnixAcceptor<'a, R>, Closer)
    ensures { result.0 ≡ new_listening false }
{
    (UnixAcceptor::unbound(rt), Closer::none())
}

/// What listens at the socket that the words name, with its closer. It has no socket if they name
/// none. `None` if connections can't be served: there is no device, or listening there fails, and
/// then standard error says why.
pub fn acceptor_of<'a, R: Files<File = File> + Net + AllocGlobal + Eprint>(
    rt: &'a R,
    words: &[String],
    has_device: bool,
) -> Option<(UnixAcceptor<'a, R>, Closer)>
    ensures new { IfSome result (λ made. made.0 ≡ new_listening made.0.is_bound) }
    ensures unasked { (IsSomeAnd (accepted (map string_bytes words.now)) (λ plan. IsServe plan.job)
        → ⊥)
        → IsSomeAnd result (λ made. made.0 ≡ new_listening false) }
{
    let Ok(plan) = read_words(words) else {
        return Some(unbound(rt));
    };
    if plan.job != Verb::Serve {
        return Some(unbound(rt));
    }
    if !has_device {
        return None;
    }
    let path = plan.socket.as_str();
    match listen_at(rt, path) {
        Ok(made) => {
            let _ = eprintln!(rt; "tabrmd: listens at {path}");
            Some(made)
        }
        Err(error) => {
            let _ = eprintln!(rt; "tabrmd: can't listen at {path}: {error}");
            None
        }
    }
}

// An acceptor at this path, and its closer.
fn listen_at<'a, R: Files<File = File> + Net + AllocGlobal>(
    rt: &'a R,
    path: &str,
) -> io::Result<(UnixAcceptor<'a, R>, Closer)>
    ensures { IfOk result (λ made. made.0 ≡ new_listening true) }
{
    let acceptor = UnixAcceptor::bind(rt, path)?;
    let closer = acceptor.closer()?;
    Ok((acceptor, closer))
}
