//! Requests and replies as texts. A request is its words with a space between two, a reply its lines with a comma between
//! two. `#` stands for a value, as a word `@` for the offset of its last byte, `:#` for its length, and `$#` for the value as
//! a reply.

use std::alloc::Global;
use std::io;
use std::io::Write;

/// Adds a value of so many bytes.
fn add_value(alloc: Global, all: &mut Vec<u8>, size: usize) -> io::Result<()> {
    let value = vec![in alloc; b'v'; size]?;
    write!(all, "${size}\r\n")?;
    Ok(all.extend_from_slice(&value)?)
}

/// Adds a word of a request, where a value has so many bytes.
pub(crate) fn add_word(
    alloc: Global,
    all: &mut Vec<u8>,
    word: &str,
    size: usize,
) -> io::Result<()> {
    if word == "#" {
        add_value(alloc, all, size)?;
    } else if word == "@" {
        let offset = format!(in alloc; "{}", size.saturating_sub(1))?;
        write!(all, "${}\r\n{offset}", offset.len())?;
    } else {
        write!(all, "${}\r\n{word}", word.len())?;
    }
    write!(all, "\r\n")
}

/// Adds a request, where a value has so many bytes.
pub(crate) fn add_request(
    alloc: Global,
    all: &mut Vec<u8>,
    request: &str,
    size: usize,
) -> io::Result<()> {
    let mut count = 0usize;
    for _ in request.split(' ') {
        count = count.saturating_add(1);
    }
    write!(all, "*{count}\r\n")?;
    for word in request.split(' ') {
        add_word(alloc, all, word, size)?;
    }
    Ok(())
}

/// Adds a reply, where a value has so many bytes.
pub(crate) fn add_reply(
    alloc: Global,
    all: &mut Vec<u8>,
    reply: &str,
    size: usize,
) -> io::Result<()> {
    for line in reply.split(',') {
        if line == ":#" {
            write!(all, ":{size}")?;
        } else if line == "$#" {
            add_value(alloc, all, size)?;
        } else {
            write!(all, "{line}")?;
        }
        write!(all, "\r\n")?;
    }
    Ok(())
}
