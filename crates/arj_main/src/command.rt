// The words of the command line.
use std::alloc::Global;
use std::{env, io};

/// The words behind the program's name. An error says that one isn't UTF-8, or that memory is wanting.
pub fn words(rt: &HostRuntime, alloc: Global) -> io::Result<Vec<String>> {
    let mut words = Vec::new(alloc);
    for word in env::args(rt)?.skip(1) {
        words.push(word)?;
    }
    Ok(words)
}
