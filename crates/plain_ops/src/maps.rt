ghost use Rattle.std.specs.Prelude.{[], ◌≡◌, ◌≤◌, ◌<◌, ◌-◌, ◌^◌, true, decimal, OnOk, OnErr};
ghost use Rattle.mc_text.specs.declared.plain_commands.PlainCommand.TheVariants.{Set, Add, Replace, Cas, Delete, Incr, Decr};
ghost use Rattle.mc_text.specs.declared.plain_replies.PlainReply.TheVariants as PlainReply;
ghost use Rattle.plain_ops.specs.Entries.{is_fit};
ghost use Rattle.plain_ops.specs.Steps.{PlainStep, ComesOf, stores, after, IsStored};

use crate::tables::Table;
use itoa::Buffer;
use mc_text::{PlainCommand, PlainKey, PlainReply, plain_number};
use rows_model::{Memory, Value};
use std::alloc::Global;
use std::marker::Model;

/// The plain map: items by plain keys, at most 65,536 of them with at most 268,435,456 bytes of keys
/// and values together. Contracts see its entries, and the unique that the next stored change draws.
#[derive(Drop)]
pub struct Plain {
    alloc: Global,
    table: Table,
    next: u64,
}

impl Model for Plain {
    ghost use Rattle.plain_ops.specs.Steps.{PlainMap};

    ghost Value = { PlainMap };

    ghost view = { λ p. record { entries = p.table; next = p.next } };
}

impl Plain {
    /// A map with no item, whose first stored change draws this unique. It takes no memory.
    pub fn new(alloc: Global, first: u64) -> Plain
        requires { 1 ≤ first }
        ensures { result ≡ record { entries = []; next = first } }
    {
        Plain {
            alloc,
            table: Table::new(alloc),
            next: first,
        }
    }

    /// Carries out a command, and answers what its client is told. A refusal leaves the map as it
    /// was, want of memory too. No value of more than 256 bytes is copied, neither in nor out.
    pub fn run(&mut self, command: &PlainCommand) -> PlainReply
        ensures { PlainStep self.old command.now self.new result }
    {
        match command {
            PlainCommand::Get { keys } => match self.table.find_all(keys.keys()) {
                Ok(found) => PlainReply::Values { found },
                Err(Memory) => PlainReply::Memory,
            },
            PlainCommand::Gets { keys } => match self.table.find_all(keys.keys()) {
                Ok(found) => PlainReply::Uniques { found },
                Err(Memory) => PlainReply::Memory,
            },
            PlainCommand::Set { key, flags, value } => {
                self.store(key, *flags, value, PlainReply::Stored)
            }
            PlainCommand::Add { key, flags, value } => self.add(key, *flags, value),
            PlainCommand::Replace { key, flags, value } => self.replace(key, *flags, value),
            PlainCommand::Cas {
                key,
                flags,
                value,
                unique,
            } => self.cas(key, *flags, value, *unique),
            PlainCommand::Delete { key } => self.delete(key),
            PlainCommand::Incr { key, by } => self.incr(key, *by),
            PlainCommand::Decr { key, by } => self.decr(key, *by),
        }
    }

    fn add(&mut self, key: &PlainKey, flags: u32, value: &Value) -> PlainReply
        ensures { PlainStep self.old (Add key.now flags value.now) self.new result }
    {
        match self.table.find(key) {
            Some(_) => PlainReply::NotStored,
            None => self.store(key, flags, value, PlainReply::Stored),
        }
    }

    fn replace(&mut self, key: &PlainKey, flags: u32, value: &Value) -> PlainReply
        ensures { PlainStep self.old (Replace key.now flags value.now) self.new result }
    {
        match self.table.find(key) {
            Some(_) => self.store(key, flags, value, PlainReply::Stored),
            None => PlainReply::NotStored,
        }
    }

    fn cas(&mut self, key: &PlainKey, flags: u32, value: &Value, unique: u64) -> PlainReply
        ensures { PlainStep self.old (Cas key.now flags value.now unique) self.new result }
    {
        match self.table.find(key) {
            Some(item) if item.unique == unique => {
                self.store(key, flags, value, PlainReply::Stored)
            }
            Some(_) => PlainReply::Exists,
            None => PlainReply::NotFound,
        }
    }

    fn delete(&mut self, key: &PlainKey) -> PlainReply
        ensures { PlainStep self.old (Delete key.now) self.new result }
    {
        if self.table.take_out(key) {
            PlainReply::Deleted
        } else {
            PlainReply::NotFound
        }
    }

    fn incr(&mut self, key: &PlainKey, by: u64) -> PlainReply
        ensures { PlainStep self.old (Incr key.now by) self.new result }
    {
        let Some(item) = self.table.find(key) else {
            return PlainReply::NotFound;
        };
        let flags = item.flags;
        match plain_number(item.value.bytes()) {
            Some(number) => self.store_number(key, flags, number.wrapping_add(by)),
            None => PlainReply::NotNumber,
        }
    }

    fn decr(&mut self, key: &PlainKey, by: u64) -> PlainReply
        ensures { PlainStep self.old (Decr key.now by) self.new result }
    {
        let Some(item) = self.table.find(key) else {
            return PlainReply::NotFound;
        };
        let flags = item.flags;
        match plain_number(item.value.bytes()) {
            Some(number) => self.store_number(key, flags, number.saturating_sub(by)),
            None => PlainReply::NotNumber,
        }
    }

    // Stores a number as it is written, and tells it.
    fn store_number(&mut self, key: &PlainKey, flags: u32, number: u64) -> PlainReply
        ensures { ComesOf self.old (stores key.now flags (decimal number) (PlainReply.Number number))
            self.new result }
    {
        let mut buffer = Buffer::new();
        match Vec::from_slice(self.alloc, buffer.format(number).as_bytes()) {
            Ok(text) => {
                self.store(
                    key,
                    flags,
                    &Value::from(text),
                    PlainReply::Number { number },
                )
            }
            Err(_) => PlainReply::Memory,
        }
    }

    // Stores an item, and tells what is wanted then; or tells why it can't be stored.
    fn store(&mut self, key: &PlainKey, flags: u32, value: &Value, wanted: PlainReply) -> PlainReply
        ensures { ComesOf self.old (stores key.now flags value.now wanted) self.new result }
    {
        if self.next == u64::MAX {
            return PlainReply::Spent;
        }
        if !self.table.has_room(key, value) {
            return PlainReply::Full;
        }
        match self.put(key, flags, value) {
            Ok(()) => wanted,
            Err(Memory) => PlainReply::Memory,
        }
    }

    // Puts an item at a key. After want of memory all is as before.
    fn put(&mut self, key: &PlainKey, flags: u32, value: &Value) -> Result<(), Memory>
        requires unspent { self.old.next < 2 ^ 64 - 1 }
        requires fit { is_fit (after self.old key.now flags value.now) ≡ true }
        ensures ok { OnOk result (IsStored self.old key.now flags value.now self.new) }
        ensures err { OnErr result (self.new ≡ self.old) }
    {
        self.table.put(key, flags, value, self.next)?;
        self.next += 1;
        Ok(())
    }
}
