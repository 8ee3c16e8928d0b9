//! What a program gets from its process: the words of the command line, and the files that they name.
use crate::command_line::{refuse_for_memory, refuse_words};
use crate::progress::{InputText, WatchedSource};
use polcert_answer::RunFault;
use polcert_text::ReaderSource;
use std::alloc::AllocError;
use std::rt::{Env, Files};
use std::time::Clock;
use std::{env, fs, io};

/// Returns the words of the command line, of which the first is the program's name.
///
/// # Errors
///
/// The exit status, once it has printed why there are none.
pub fn process_words<R: Env + AllocGlobal + Eprint>(rt: &R) -> Result<Vec<String>, u8> {
    match env::args(rt) {
        Ok(args) => match args.collect(rt.alloc()) {
            Ok(words) => Ok(words),
            Err(AllocError) => Err(refuse_for_memory(rt)),
        },
        Err(error) if error.kind() == io::ErrorKind::OutOfMemory => Err(refuse_for_memory(rt)),
        Err(_) => Err(refuse_words(rt, "a word of the command line is no text")),
    }
}

/// Returns the words as a list of texts.
///
/// # Errors
///
/// The exit status, once it has printed that memory ran out.
pub fn borrow_words<'a, R: AllocGlobal + Eprint>(
    rt: &R,
    words: &'a Vec<String>,
) -> Result<Vec<&'a str>, u8> {
    let mut borrowed = Vec::new(rt.alloc());
    for word in words {
        if borrowed.push(word.as_str()).is_err() {
            return Err(refuse_for_memory(rt));
        }
    }
    Ok(borrowed)
}

/// Opens a text by the name of its file. If standard error is a terminal, its reading shows its progress there.
///
/// # Errors
///
/// The text's own, if the file can't be opened.
pub fn open_text<'a, R: Files + Clock + Eprint>(
    rt: &'a R,
    is_terminal: bool,
    text: InputText,
    name: &str,
) -> Result<WatchedSource<'a, ReaderSource<R::File>, R>, RunFault> {
    match fs::open(rt, name) {
        Ok(file) => {
            let reader = ReaderSource::new(file);
            Ok(WatchedSource::new(reader, text, rt, is_terminal))
        }
        Err(_) => Err(text.read_fault()),
    }
}
