//! A plain map, and what it answers along a history.

use resp_write::encode;
use std::alloc::Global;
use std::collections::BTreeMap;
use words::command::Command;
use words::history::{Entry, Operation};
use words::word::Word;

/// A plain map, which entry of the history wrote each key last, and the position of the next entry.
#[derive(Drop)]
pub(crate) struct Plain {
    alloc: Global,
    values: BTreeMap<Vec<u8>, Vec<u8>>,
    writers: BTreeMap<Vec<u8>, u64>,
    position: u64,
}

impl Plain {
    /// An empty map, before the first entry.
    pub(crate) fn new(alloc: Global) -> Plain {
        Plain {
            alloc,
            values: BTreeMap::new(alloc),
            writers: BTreeMap::new(alloc),
            position: 0,
        }
    }

    /// The position of the present entry.
    pub(crate) fn position(&self) -> u64 {
        self.position
    }

    /// Goes on to the next entry.
    pub(crate) fn go_on(&mut self) {
        self.position = self.position.saturating_add(1);
    }

    /// What the present entry is due to be answered, as bytes, where its own reply is that. `None` where it is not, for
    /// a command that no random request asks for, and where there was no memory.
    pub(crate) fn reply(&mut self, entry: &Entry) -> Option<Vec<u8>> {
        let mut due = Vec::new(self.alloc);
        self.operate(&mut due, &entry.operation)?;
        let mut said = Vec::new(self.alloc);
        encode(&entry.reply, &mut said).ok()?;
        (said.as_slice() == due.as_slice()).then_some(due)
    }

    /// Does an operation, and adds its reply to a text.
    fn operate(&mut self, text: &mut Vec<u8>, operation: &Operation) -> Option<()> {
        match operation {
            Operation::Run(command) => self.answer(text, command),
            Operation::Watch(_) => add(text, b"+OK\r\n"),
            Operation::Exec(commands, pairs) => {
                let [first, second] = commands.as_slice() else {
                    return None;
                };
                if self.is_any_written(pairs.as_slice()) {
                    return add(text, b"*-1\r\n");
                }
                add(text, b"*2\r\n")?;
                self.answer(text, first)?;
                self.answer(text, second)
            }
        }
    }

    /// Whether one of these keys was written by an entry behind its position.
    fn is_any_written(&self, pairs: &[(Word, u64)]) -> bool {
        pairs.iter().any(|(key, position)| match self.writers.get(key.as_slice()) {
            Some(writer) => *position < *writer,
            None => false,
        })
    }

    /// Does a command, and adds its reply to a text.
    fn answer(&mut self, text: &mut Vec<u8>, command: &Command) -> Option<()> {
        match command {
            Command::Get(key) => self.add_value(text, key),
            Command::MGet(keys) => {
                let [first, second] = keys.as_slice() else {
                    return None;
                };
                add(text, b"*2\r\n")?;
                self.add_value(text, first)?;
                self.add_value(text, second)
            }
            Command::Set(key, value, _) => {
                self.set(key, value)?;
                add(text, b"+OK\r\n")
            }
            Command::MSet(settings) => {
                for (key, value) in settings.as_slice() {
                    self.set(key, value)?;
                }
                add(text, b"+OK\r\n")
            }
            Command::Del(keys) => {
                let [key] = keys.as_slice() else {
                    return None;
                };
                self.delete(text, key)
            }
            _ => None,
        }
    }

    /// Sets a key.
    fn set(&mut self, key: &Word, value: &Word) -> Option<()> {
        let value = Vec::from_slice(self.alloc, value.as_slice()).ok()?;
        let owned = self.key(key)?;
        let _old = self.values.insert(owned, value).ok()?;
        self.note(key)
    }

    /// Deletes a key, and adds how many there were.
    fn delete(&mut self, text: &mut Vec<u8>, key: &Word) -> Option<()> {
        match self.values.remove(key.as_slice()) {
            Some(_) => {
                self.note(key)?;
                add(text, b":1\r\n")
            }
            None => add(text, b":0\r\n"),
        }
    }

    /// The present entry wrote a key.
    fn note(&mut self, key: &Word) -> Option<()> {
        let owned = self.key(key)?;
        let _old = self.writers.insert(owned, self.position).ok()?;
        Some(())
    }

    /// The bytes of a key.
    fn key(&self, key: &Word) -> Option<Vec<u8>> {
        Vec::from_slice(self.alloc, key.as_slice()).ok()
    }

    /// Adds a value as a bulk string.
    fn add_value(&self, text: &mut Vec<u8>, key: &Word) -> Option<()> {
        let Some(value) = self.values.get(key.as_slice()) else {
            return add(text, b"$-1\r\n");
        };
        add(text, b"$")?;
        add(text, itoa::Buffer::new().format(value.len()).as_bytes())?;
        add(text, b"\r\n")?;
        add(text, value.as_slice())?;
        add(text, b"\r\n")
    }
}

/// Adds bytes to a text.
fn add(text: &mut Vec<u8>, bytes: &[u8]) -> Option<()> {
    text.extend_from_slice(bytes).ok()
}
