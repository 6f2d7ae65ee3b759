// What a line says, by its words.
ghost use Rattle.std.specs.Prelude.{◌≡◌, [], Option, IfSome, IfNone, IfOk, OnErr, MatchOption};
ghost use Rattle.rows_model.specs.declared.keys.QKey.{QKey};
ghost use Rattle.rows_model.specs.declared.keys.Sid.{Sid};
ghost use Rattle.mc_text.specs.Words.{words_in, IsKey, IsSid};
ghost use Rattle.mc_text.specs.declared.commands.Role.{Role};
ghost use Rattle.mc_text.specs.declared.verb_words.LeaseVerb.TheVariants as lease;
ghost use Rattle.mc_text.specs.declared.lines.Said.TheVariants.{Whole, Headed, Bad};
ghost use Rattle.mc_text.specs.Verbs.{lease_text, IsNoVerb, lease_rows};
ghost use Rattle.mc_text.specs.Commands.{Then, NoMore, role_word};
ghost use Rattle.mc_text.specs.Parsing.{IsSaid, IsUnsaid, with_block};
ghost use Rattle.mc_text.specs.Telling.{Tells, TellsTxn, WordsSay, SayTxn};

use crate::commands::{Command, Head, Role};
use crate::txns::txn_of;
use crate::verb_words::{LeaseVerb, Verb};
use crate::verbs::lease_verbs;
use crate::words::{has_ended, next_word, take_by, take_flags, take_key, take_number, take_sid};
use rows_model::{Memory, QKey, Sid};
use std::alloc::Global;

// What a line says.
#[derive(Drop)]
pub enum Said {
    /// A command that is its line alone.
    Whole { command: Command },
    /// A command with a block behind its line.
    Headed { head: Head },
    /// The verb is one, and the line isn't of its form.
    Bad,
}

/// What the line says, without the CR LF that ends it.
pub(crate) fn said_of(alloc: Global, line: &[u8]) -> Result<Said, Memory>
    ensures told { IfOk result (λ said. WordsSay (words_in line.now) said) }
    ensures memory { OnErr result (SayTxn (words_in line.now)) }
{
    let Some((word, args)) = next_word(line) else {
        return Ok(Said::Whole {
            command: Command::Unknown,
        });
    };
    match lease_verb(word) {
        Some(verb) => said_by(alloc, verb, args),
        None => Ok(Said::Whole {
            command: Command::Unknown,
        }),
    }
}

// The verb of a lease command that the word is.
fn lease_verb(word: &[u8]) -> Option<LeaseVerb>
    ensures found { IfSome result (λ verb. word.now ≡ lease_text verb) }
    ensures none { IfNone result (IsNoVerb lease_rows word.now) }
{
    match lease_verbs().find(word)?.which {
        Verb::Lease(verb) => Some(verb),
        Verb::Plain(_) => None,
    }
}

/// What the words behind a verb say.
pub(crate) fn said_by(alloc: Global, verb: LeaseVerb, args: &[u8]) -> Result<Said, Memory>
    ensures tells { IfOk result (λ said. Tells verb (words_in args.now) said) }
    ensures memory { OnErr result (TellsTxn verb (words_in args.now)) }
{
    match verb {
        LeaseVerb::Begin => Ok(whole(begin_of(args))),
        LeaseVerb::IqGet => Ok(whole(iqget_of(args))),
        LeaseVerb::Ask => Ok(whole(ask_of(args))),
        LeaseVerb::Stage => Ok(whole(stage_of(alloc, args)?)),
        LeaseVerb::IqSet => Ok(headed(iqset_of(args))),
        LeaseVerb::QaReg => Ok(whole(qareg_of(args))),
        LeaseVerb::QaRead => Ok(whole(qaread_of(args))),
        LeaseVerb::IqDelta => Ok(whole(iqdelta_of(args))),
        LeaseVerb::Sql => Ok(whole(sql_of(alloc, args)?)),
        LeaseVerb::Dar => Ok(whole(dar_of(args))),
        LeaseVerb::Sar => Ok(headed(sar_of(args))),
        LeaseVerb::IqCommit => Ok(whole(iqcommit_of(args))),
        LeaseVerb::IqAbort => Ok(whole(iqabort_of(args))),
        LeaseVerb::Quit => Ok(whole(quit_of(args))),
    }
}

fn whole(read: Option<Command>) -> Said
    ensures { MatchOption read (result ≡ Bad) (λ command. result ≡ Whole command) }
{
    match read {
        Some(command) => Said::Whole { command },
        None => Said::Bad,
    }
}

fn headed(read: Option<Head>) -> Said
    ensures { MatchOption read (result ≡ Bad) (λ head. result ≡ Headed head) }
{
    match read {
        Some(head) => Said::Headed { head },
        None => Said::Bad,
    }
}

// A key and the number of a session, and no word more.
fn pair_of(args: &[u8]) -> Option<(Option<QKey>, Sid)>
    ensures found { IfSome result (λ pair.
        Then (λ word. IsKey word pair.0) (Then (λ word. IsSid word pair.1) NoMore) (words_in args.now)) }
    ensures none { IfNone result ((key : Option QKey) (sid : Sid)
        → Then (λ word. IsKey word key) (Then (λ word. IsSid word sid) NoMore) (words_in args.now) → ⊥) }
{
    let (key, rest) = take_key(args)?;
    let (sid, rest) = take_sid(rest)?;
    if !has_ended(rest) {
        return None;
    }
    Some((key, sid))
}

fn begin_of(args: &[u8]) -> Option<Command>
    ensures found { IfSome result (λ command. IsSaid lease.Begin (words_in args.now) command) }
    ensures none { IfNone result (IsUnsaid lease.Begin (words_in args.now)) }
{
    let (word, rest) = next_word(args)?;
    let role = role_of(word)?;
    if !has_ended(rest) {
        return None;
    }
    Some(Command::Begin { role })
}

// The role of which this is the word.
fn role_of(word: &[u8]) -> Option<Role>
    ensures found { IfSome result (λ role. word.now ≡ role_word role) }
    ensures none { IfNone result ((role : Role) → word.now ≡ role_word role → ⊥) }
{
    match word {
        b"read" => Some(Role::Read),
        b"write" => Some(Role::Write),
        _ => None,
    }
}

fn iqget_of(args: &[u8]) -> Option<Command>
    ensures found { IfSome result (λ command. IsSaid lease.IqGet (words_in args.now) command) }
    ensures none { IfNone result (IsUnsaid lease.IqGet (words_in args.now)) }
{
    let (key, rest) = take_key(args)?;
    let (sid, rest) = take_sid(rest)?;
    let (floor, rest) = take_number(rest)?;
    if !has_ended(rest) {
        return None;
    }
    Some(Command::IqGet { key, sid, floor })
}

fn ask_of(args: &[u8]) -> Option<Command>
    ensures found { IfSome result (λ command. IsSaid lease.Ask (words_in args.now) command) }
    ensures none { IfNone result (IsUnsaid lease.Ask (words_in args.now)) }
{
    let (key, sid) = pair_of(args)?;
    Some(Command::Ask { key, sid })
}

fn stage_of(alloc: Global, args: &[u8]) -> Result<Option<Command>, Memory>
    ensures found { IfOk result (λ read. IfSome read
        (λ command. IsSaid lease.Stage (words_in args.now) command)) }
    ensures none { IfOk result (λ read. IfNone read (IsUnsaid lease.Stage (words_in args.now))) }
    ensures memory { OnErr result (TellsTxn lease.Stage (words_in args.now)) }
{
    let Some((key, rest)) = take_key(args) else {
        return Ok(None);
    };
    let Some((sid, rest)) = take_sid(rest) else {
        return Ok(None);
    };
    match txn_of(alloc, rest)? {
        Some(txn) => Ok(Some(Command::Stage { key, sid, txn })),
        None => Ok(None),
    }
}

fn iqset_of(args: &[u8]) -> Option<Head>
    ensures found { IfSome result
        (λ head. IsSaid lease.IqSet (words_in args.now) (with_block head [])) }
    ensures none { IfNone result (IsUnsaid lease.IqSet (words_in args.now)) }
{
    let (key, rest) = take_key(args)?;
    let (flags, rest) = take_flags(rest)?;
    let (exptime, rest) = take_number(rest)?;
    let (bytes, rest) = take_number(rest)?;
    let (token, rest) = take_number(rest)?;
    let (stamp, rest) = take_number(rest)?;
    if !has_ended(rest) {
        return None;
    }
    Some(Head::Set {
        key,
        flags,
        exptime,
        bytes,
        token,
        stamp,
    })
}

fn qareg_of(args: &[u8]) -> Option<Command>
    ensures found { IfSome result (λ command. IsSaid lease.QaReg (words_in args.now) command) }
    ensures none { IfNone result (IsUnsaid lease.QaReg (words_in args.now)) }
{
    let (key, sid) = pair_of(args)?;
    Some(Command::QaReg { key, sid })
}

fn qaread_of(args: &[u8]) -> Option<Command>
    ensures found { IfSome result (λ command. IsSaid lease.QaRead (words_in args.now) command) }
    ensures none { IfNone result (IsUnsaid lease.QaRead (words_in args.now)) }
{
    let (key, sid) = pair_of(args)?;
    Some(Command::QaRead { key, sid })
}

fn iqdelta_of(args: &[u8]) -> Option<Command>
    ensures found { IfSome result (λ command. IsSaid lease.IqDelta (words_in args.now) command) }
    ensures none { IfNone result (IsUnsaid lease.IqDelta (words_in args.now)) }
{
    let (key, rest) = take_key(args)?;
    let (sid, rest) = take_sid(rest)?;
    let (by, rest) = take_by(rest)?;
    if !has_ended(rest) {
        return None;
    }
    Some(Command::IqDelta { key, sid, by })
}

fn sql_of(alloc: Global, args: &[u8]) -> Result<Option<Command>, Memory>
    ensures found { IfOk result (λ read. IfSome read
        (λ command. IsSaid lease.Sql (words_in args.now) command)) }
    ensures none { IfOk result (λ read. IfNone read (IsUnsaid lease.Sql (words_in args.now))) }
    ensures memory { OnErr result (TellsTxn lease.Sql (words_in args.now)) }
{
    let Some((sid, rest)) = take_sid(args) else {
        return Ok(None);
    };
    match txn_of(alloc, rest)? {
        Some(txn) => Ok(Some(Command::Sql { sid, txn })),
        None => Ok(None),
    }
}

fn dar_of(args: &[u8]) -> Option<Command>
    ensures found { IfSome result (λ command. IsSaid lease.Dar (words_in args.now) command) }
    ensures none { IfNone result (IsUnsaid lease.Dar (words_in args.now)) }
{
    let (key, sid) = pair_of(args)?;
    Some(Command::Dar { key, sid })
}

fn sar_of(args: &[u8]) -> Option<Head>
    ensures found { IfSome result
        (λ head. IsSaid lease.Sar (words_in args.now) (with_block head [])) }
    ensures none { IfNone result (IsUnsaid lease.Sar (words_in args.now)) }
{
    let (key, rest) = take_key(args)?;
    let (flags, rest) = take_flags(rest)?;
    let (exptime, rest) = take_number(rest)?;
    let (bytes, rest) = take_number(rest)?;
    let (sid, rest) = take_sid(rest)?;
    if !has_ended(rest) {
        return None;
    }
    Some(Head::Sar {
        key,
        flags,
        exptime,
        bytes,
        sid,
    })
}

fn iqcommit_of(args: &[u8]) -> Option<Command>
    ensures found { IfSome result (λ command. IsSaid lease.IqCommit (words_in args.now) command) }
    ensures none { IfNone result (IsUnsaid lease.IqCommit (words_in args.now)) }
{
    let (key, sid) = pair_of(args)?;
    Some(Command::IqCommit { key, sid })
}

fn iqabort_of(args: &[u8]) -> Option<Command>
    ensures found { IfSome result (λ command. IsSaid lease.IqAbort (words_in args.now) command) }
    ensures none { IfNone result (IsUnsaid lease.IqAbort (words_in args.now)) }
{
    let (sid, rest) = take_sid(args)?;
    if !has_ended(rest) {
        return None;
    }
    Some(Command::IqAbort { sid })
}

fn quit_of(args: &[u8]) -> Option<Command>
    ensures found { IfSome result (λ command. IsSaid lease.Quit (words_in args.now) command) }
    ensures none { IfNone result (IsUnsaid lease.Quit (words_in args.now)) }
{
    if !has_ended(args) {
        return None;
    }
    Some(Command::Quit)
}
