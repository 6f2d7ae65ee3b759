//! The text of commands: which bytes say which lease command, which words say which plain one, and what
//! a reply looks like.
#![tactic(auto)]

pub use commands::{Command, Role};
pub use faults::FrameFault;
pub use framing::Framer;
pub use items::{Front, ends_at, front_by, front_of, line_end};
pub use laws::streams_tell_items;
pub use lookups::lookup_front;
pub use plain_commands::PlainCommand;
pub use plain_keys::{PlainKey, PlainKeys};
pub use plain_lines::{Fields, PlainHead, PlainLine, PlainSaid, Storing, plain_line};
pub use plain_numbers::plain_number;
pub use plain_replies::{Found, FoundItems, PlainReply};
pub use plain_texts::{write_found, write_plain_reply};
pub use plain_verb_words::{PlainVerb, plain_verb};
pub use plain_words::KeyWord;
pub use replies::{LineReply, reply_text, write_reply};
pub use verb_words::{LeaseVerb, Verb};
pub use verbs::{VerbRow, Verbs, lease_verbs, plain_verbs};
pub use words::next_word;

pub mod commands;
pub mod faults;
pub mod framing;
mod items;
pub mod laws;
mod lines;
mod lookups;
mod number_lines;
mod numbers;
pub mod plain_commands;
pub mod plain_keys;
mod plain_lines;
pub mod plain_numbers;
pub mod plain_replies;
mod plain_texts;
mod plain_verb_words;
mod plain_words;
pub mod replies;
mod txns;
mod verb_words;
pub mod verbs;
mod words;
