use std::alloc::AllocError;
use std::{env, io};
use wb_outer::Bytes;

/// The words behind the program's name. Words that are not UTF-8 are of no form, like no words at all.
pub fn command_words(rt: &HostRuntime) -> Result<Vec<Bytes>, AllocError> {
    let alloc = rt.alloc();
    let mut words = Vec::new(alloc);
    match env::args(rt) {
        Ok(args) => {
            for word in args.skip(1) {
                words.push(Bytes::from_slice(alloc, word.as_bytes())?)?;
            }
            Ok(words)
        }
        Err(error) if error.kind() == io::ErrorKind::OutOfMemory => Err(AllocError),
        Err(_) => Ok(words),
    }
}
