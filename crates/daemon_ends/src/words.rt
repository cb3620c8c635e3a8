use std::alloc::AllocError;
use std::env;
use std::env::Env;
use std::io::ErrorKind;

/// The words after the program's name. If one of them isn't UTF-8, there are none: the top call
/// refuses that too. It fails only for want of memory.
pub fn read_args<R: Env + AllocGlobal>(rt: &R) -> Result<Vec<String>, AllocError> {
    match env::args(rt) {
        Ok(args) => args.skip(1).collect(rt.alloc()),
        Err(error) if error.kind() == ErrorKind::OutOfMemory => Err(AllocError),
        Err(_) => Ok(Vec::new(rt.alloc())),
    }
}
