// What the line of a plain command says, by the words behind its verb.
ghost use Rattle.std.specs.Prelude.{◌≡◌, Bool, IfSome, IfNone, IfOk, MatchOption};
ghost use Rattle.mc_text.specs.Words.{words_in};
ghost use Rattle.mc_text.specs.PlainWords.{IsKeyWord, IsLast};
ghost use Rattle.mc_text.specs.declared.plain_words.KeyWord.{KeyWord};
ghost use Rattle.mc_text.specs.declared.plain_verb_words.PlainVerb.TheVariants as verb;
ghost use Rattle.mc_text.specs.declared.plain_lines.Fields.{Fields};
ghost use Rattle.mc_text.specs.declared.plain_lines.Counted.{Counted};
ghost use Rattle.mc_text.specs.declared.plain_lines.PlainLine.TheVariants.{Whole, Headed, Bad};
ghost use Rattle.mc_text.specs.PlainLines.{stored, said_with, AreFields, IsHead, IsNoHead, SayWhole, IsNoWhole, HasKey, Tells};
ghost use Rattle.mc_text.specs.PlainParts.{BeginWithFields, IsNoFields, IsKeyAlone, IsCounted, AreKeyWords};

use crate::plain_commands::PlainCommand;
use crate::plain_keys::{PlainKey, PlainKeys};
use crate::plain_verb_words::PlainVerb;
use crate::plain_words::{KeyWord, is_plain_key, noreply_of, take_exptime, take_key_word};
use crate::words::{next_word, take_flags, take_number};
use rows_model::{Memory, Value};
use std::alloc::Global;

// The most bytes of a block whose value has bytes of its own.
const SHORT_BLOCK: usize = 256;

/// What a plain command comes to before the plain map is asked.
#[derive(Drop)]
pub enum PlainSaid {
    /// A command for the plain map.
    Asks { command: PlainCommand },
    /// One of the keys is a key of the cache.
    QueryKey,
    /// The time of expiry isn't 0.
    Exptime,
}

/// How an item is to be stored.
#[derive(Clone, Copy)]
pub enum Storing {
    Set,
    Add,
    Replace,
    Cas { unique: u64 },
}

/// What the lines of all commands say that store the block behind them.
#[derive(Clone, Copy)]
pub struct Fields<'a> {
    pub key: KeyWord<'a>,
    pub flags: u32,
    /// Whether the time of expiry isn't 0.
    pub expires: bool,
    /// How many bytes the block has.
    pub bytes: u64,
}

/// What the line of such a command says.
#[derive(Clone, Copy)]
pub struct PlainHead<'a> {
    pub storing: Storing,
    pub fields: Fields<'a>,
    pub noreply: bool,
}

/// What the line of a plain command says.
#[derive(Drop)]
pub enum PlainLine<'a> {
    /// A command that is its line alone.
    Whole { said: PlainSaid, noreply: bool },
    /// A command with a block behind its line.
    Headed { head: PlainHead<'a> },
    /// The line isn't of its verb's form.
    Bad,
}

impl<'a> PlainHead<'a> {
    /// What the line says with its block.
    pub fn with_block(self, alloc: Global, block: &[u8]) -> Result<PlainSaid, Memory>
        requires { IsKeyWord self.fields.key.word.now self.fields.key.is_plain }
        ensures { IfOk result (λ said. said ≡ said_with self.entry block.now) }
    {
        let Some(key) = self.fields.key.key(alloc)? else {
            return Ok(PlainSaid::QueryKey);
        };
        if self.fields.expires {
            return Ok(PlainSaid::Exptime);
        }
        Ok(PlainSaid::Asks {
            command: self.stored(key, value_of(alloc, block)?),
        })
    }

    // The command that stores the value.
    fn stored(self, key: PlainKey, block: Value) -> PlainCommand
        ensures { result ≡ stored self.entry.storing key self.entry.fields.flags block }
    {
        let flags = self.fields.flags;
        match self.storing {
            Storing::Set => PlainCommand::Set {
                key,
                flags,
                value: block,
            },
            Storing::Add => PlainCommand::Add {
                key,
                flags,
                value: block,
            },
            Storing::Replace => PlainCommand::Replace {
                key,
                flags,
                value: block,
            },
            Storing::Cas { unique } => PlainCommand::Cas {
                key,
                flags,
                value: block,
                unique,
            },
        }
    }
}

// The value that a block is. A short one has bytes of its own, which takes one ask for memory; copies of a longer one
// share them.
fn value_of(alloc: Global, block: &[u8]) -> Result<Value, Memory>
    ensures { IfOk result (λ value. value ≡ block.now) }
{
    if block.len() <= SHORT_BLOCK {
        Ok(Value::from(Vec::from_slice(alloc, block)?))
    } else {
        Value::of(alloc, block)
    }
}

/// What the words behind the verb of a plain command say.
pub fn plain_line(alloc: Global, verb: PlainVerb, args: &[u8]) -> Result<PlainLine<'_>, Memory>
    ensures tells { IfOk result (λ line. Tells verb (words_in args.now) line) }
    ensures key { IfOk result HasKey }
{
    match verb {
        PlainVerb::Get => Ok(whole(get_of(alloc, args)?)),
        PlainVerb::Gets => Ok(whole(gets_of(alloc, args)?)),
        PlainVerb::Set => Ok(headed(set_of(args))),
        PlainVerb::Add => Ok(headed(add_of(args))),
        PlainVerb::Replace => Ok(headed(replace_of(args))),
        PlainVerb::Cas => Ok(headed(cas_of(args))),
        PlainVerb::Delete => Ok(whole(delete_of(alloc, args)?)),
        PlainVerb::Incr => Ok(whole(incr_of(alloc, args)?)),
        PlainVerb::Decr => Ok(whole(decr_of(alloc, args)?)),
    }
}

fn whole<'a>(read: Option<(PlainSaid, bool)>) -> PlainLine<'a>
    ensures { MatchOption read (result ≡ Bad) (λ it. result ≡ Whole it.0 it.1) }
{
    match read {
        Some((said, noreply)) => PlainLine::Whole { said, noreply },
        None => PlainLine::Bad,
    }
}

fn headed(read: Option<PlainHead<'_>>) -> PlainLine<'_>
    ensures { MatchOption read.entry (result ≡ Bad) (λ head. result ≡ Headed head) }
{
    match read {
        Some(head) => PlainLine::Headed { head },
        None => PlainLine::Bad,
    }
}

fn set_of(args: &[u8]) -> Option<PlainHead<'_>>
    ensures found { IfSome result (λ head. IsHead verb.Set (words_in args.now) head) }
    ensures none { IfNone result (IsNoHead verb.Set (words_in args.now)) }
{
    let (fields, noreply) = all_fields(args)?;
    Some(PlainHead {
        storing: Storing::Set,
        fields,
        noreply,
    })
}

fn add_of(args: &[u8]) -> Option<PlainHead<'_>>
    ensures found { IfSome result (λ head. IsHead verb.Add (words_in args.now) head) }
    ensures none { IfNone result (IsNoHead verb.Add (words_in args.now)) }
{
    let (fields, noreply) = all_fields(args)?;
    Some(PlainHead {
        storing: Storing::Add,
        fields,
        noreply,
    })
}

fn replace_of(args: &[u8]) -> Option<PlainHead<'_>>
    ensures found { IfSome result (λ head. IsHead verb.Replace (words_in args.now) head) }
    ensures none { IfNone result (IsNoHead verb.Replace (words_in args.now)) }
{
    let (fields, noreply) = all_fields(args)?;
    Some(PlainHead {
        storing: Storing::Replace,
        fields,
        noreply,
    })
}

fn cas_of(args: &[u8]) -> Option<PlainHead<'_>>
    ensures found { IfSome result (λ head. IsHead verb.Cas (words_in args.now) head) }
    ensures none { IfNone result (IsNoHead verb.Cas (words_in args.now)) }
{
    let (fields, rest) = take_fields(args)?;
    let (unique, rest) = take_number(rest)?;
    let noreply = noreply_of(rest)?;
    Some(PlainHead {
        storing: Storing::Cas { unique },
        fields,
        noreply,
    })
}

// The first four words, and what stands behind them.
fn take_fields(args: &[u8]) -> Option<(Fields<'_>, &[u8])>
    ensures found { IfSome result
        (λ read. BeginWithFields (words_in args.now) read.0 (words_in read.1.now)) }
    ensures none { IfNone result (IsNoFields (words_in args.now)) }
{
    let (key, rest) = take_key_word(args)?;
    let (flags, rest) = take_flags(rest)?;
    let (expires, rest) = take_exptime(rest)?;
    let (bytes, rest) = take_number(rest)?;
    let fields = Fields {
        key,
        flags,
        expires,
        bytes,
    };
    Some((fields, rest))
}

// Those four words, and the end of the line.
fn all_fields(args: &[u8]) -> Option<(Fields<'_>, bool)>
    ensures found { IfSome result
        (λ read. AreFields read.0 (λ rest. IsLast rest read.1) (words_in args.now)) }
    ensures none { IfNone result ((fields : Fields) (noreply : Bool) →
        AreFields fields (λ rest. IsLast rest noreply) (words_in args.now) → ⊥) }
{
    let (fields, rest) = take_fields(args)?;
    let noreply = noreply_of(rest)?;
    Some((fields, noreply))
}

fn delete_of(alloc: Global, args: &[u8]) -> Result<Option<(PlainSaid, bool)>, Memory>
    ensures found { IfOk result (λ read. IfSome read
        (λ it. SayWhole verb.Delete (words_in args.now) it.0 it.1)) }
    ensures none { IfOk result (λ read. IfNone read (IsNoWhole verb.Delete (words_in args.now))) }
{
    let Some((key, noreply)) = key_alone(args) else {
        return Ok(None);
    };
    match key.key(alloc)? {
        Some(key) => {
            let command = PlainCommand::Delete { key };
            Ok(Some((PlainSaid::Asks { command }, noreply)))
        }
        None => Ok(Some((PlainSaid::QueryKey, noreply))),
    }
}

fn incr_of(alloc: Global, args: &[u8]) -> Result<Option<(PlainSaid, bool)>, Memory>
    ensures found { IfOk result (λ read. IfSome read
        (λ it. SayWhole verb.Incr (words_in args.now) it.0 it.1)) }
    ensures none { IfOk result (λ read. IfNone read (IsNoWhole verb.Incr (words_in args.now))) }
{
    let Some(counted) = key_and_number(args) else {
        return Ok(None);
    };
    let by = counted.by;
    match counted.key.key(alloc)? {
        Some(key) => {
            let command = PlainCommand::Incr { key, by };
            Ok(Some((PlainSaid::Asks { command }, counted.noreply)))
        }
        None => Ok(Some((PlainSaid::QueryKey, counted.noreply))),
    }
}

fn decr_of(alloc: Global, args: &[u8]) -> Result<Option<(PlainSaid, bool)>, Memory>
    ensures found { IfOk result (λ read. IfSome read
        (λ it. SayWhole verb.Decr (words_in args.now) it.0 it.1)) }
    ensures none { IfOk result (λ read. IfNone read (IsNoWhole verb.Decr (words_in args.now))) }
{
    let Some(counted) = key_and_number(args) else {
        return Ok(None);
    };
    let by = counted.by;
    match counted.key.key(alloc)? {
        Some(key) => {
            let command = PlainCommand::Decr { key, by };
            Ok(Some((PlainSaid::Asks { command }, counted.noreply)))
        }
        None => Ok(Some((PlainSaid::QueryKey, counted.noreply))),
    }
}

// A key, and the end of the line.
fn key_alone(args: &[u8]) -> Option<(KeyWord<'_>, bool)>
    ensures found { IfSome result (λ read. IsKeyAlone (words_in args.now) read.0 read.1) }
    ensures none { IfNone result ((key : KeyWord) (noreply : Bool) →
        IsKeyAlone (words_in args.now) key noreply → ⊥) }
{
    let (key, rest) = take_key_word(args)?;
    let noreply = noreply_of(rest)?;
    Some((key, noreply))
}

/// A key that counts by a number.
#[derive(Clone, Copy)]
pub struct Counted<'a> {
    pub key: KeyWord<'a>,
    pub by: u64,
    pub noreply: bool,
}

// A key, a number, and the end of the line.
fn key_and_number(args: &[u8]) -> Option<Counted<'_>>
    ensures found { IfSome result (λ counted. IsCounted (words_in args.now) counted) }
    ensures none { IfNone result ((counted : Counted) → IsCounted (words_in args.now) counted → ⊥) }
{
    let (key, rest) = take_key_word(args)?;
    let (by, rest) = take_number(rest)?;
    let noreply = noreply_of(rest)?;
    Some(Counted { key, by, noreply })
}

fn get_of(alloc: Global, args: &[u8]) -> Result<Option<(PlainSaid, bool)>, Memory>
    ensures found { IfOk result (λ read. IfSome read
        (λ it. SayWhole verb.Get (words_in args.now) it.0 it.1)) }
    ensures none { IfOk result (λ read. IfNone read (IsNoWhole verb.Get (words_in args.now))) }
{
    match keys_of(alloc, args)? {
        KeyWords::Plain { keys } => {
            let command = PlainCommand::Get { keys };
            Ok(Some((PlainSaid::Asks { command }, false)))
        }
        KeyWords::Query => Ok(Some((PlainSaid::QueryKey, false))),
        KeyWords::Bad => Ok(None),
    }
}

fn gets_of(alloc: Global, args: &[u8]) -> Result<Option<(PlainSaid, bool)>, Memory>
    ensures found { IfOk result (λ read. IfSome read
        (λ it. SayWhole verb.Gets (words_in args.now) it.0 it.1)) }
    ensures none { IfOk result (λ read. IfNone read (IsNoWhole verb.Gets (words_in args.now))) }
{
    match keys_of(alloc, args)? {
        KeyWords::Plain { keys } => {
            let command = PlainCommand::Gets { keys };
            Ok(Some((PlainSaid::Asks { command }, false)))
        }
        KeyWords::Query => Ok(Some((PlainSaid::QueryKey, false))),
        KeyWords::Bad => Ok(None),
    }
}

/// What some words are as keys.
#[derive(Drop)]
pub enum KeyWords {
    /// Plain keys, at least one.
    Plain { keys: PlainKeys },
    /// Keys, one of them of the cache.
    Query,
    /// There is none, or one may not be a key.
    Bad,
}

// The keys that the words are.
fn keys_of(alloc: Global, args: &[u8]) -> Result<KeyWords, Memory>
    ensures { IfOk result (λ keys. AreKeyWords (words_in args.now) keys) }
{
    let mut keys = Vec::new(alloc);
    let mut are_plain = true;
    let mut rest = args;
    while let Some((word, behind)) = next_word(rest) {
        match is_plain_key(word) {
            Some(true) => keys.push(PlainKey::of_plain(alloc, word)?)?,
            Some(false) => are_plain = false,
            None => return Ok(KeyWords::Bad),
        }
        rest = behind;
    }
    if !are_plain {
        return Ok(KeyWords::Query);
    }
    if keys.is_empty() {
        return Ok(KeyWords::Bad);
    }
    Ok(KeyWords::Plain {
        keys: PlainKeys::from(keys),
    })
}
