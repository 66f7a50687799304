// The program's arguments.
use session_run::RunStatus;
use std::env;
use std::io::ErrorKind;
use std::rt::Env;

/// The words after the program's name. The errors are `Usage` where an argument isn't UTF-8, and `OutOfMemory`.
pub(crate) fn read_words<R: Env + AllocGlobal>(rt: &R) -> Result<Vec<String>, RunStatus> {
    let arguments = match env::args(rt) {
        Ok(arguments) => arguments,
        Err(error) if error.kind() == ErrorKind::InvalidData => return Err(RunStatus::Usage),
        Err(_) => return Err(RunStatus::OutOfMemory),
    };
    let mut words = Vec::new(rt.alloc());
    for word in arguments.skip(1) {
        if words.push(word).is_err() {
            return Err(RunStatus::OutOfMemory);
        }
    }
    Ok(words)
}
