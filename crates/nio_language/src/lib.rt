//! The language of scripts: calls, replies and their texts, and what is true of each word.
#![tactic(auto)]

pub use bytes::Bytes;
pub use call::{Call, ScriptCall, Waiting};
pub use group_call::GroupCall;
pub use group_reply::GroupReply;
pub use names::Names;
pub use pairs::Pairs;
pub use parse::{
    LINE_LIMIT, ParseError, Parsed, cut_at, is_blank, parse_line, read_caller, read_group_channel,
    read_number, read_operation_kind, read_selector, words_of,
};
pub use print::{print_line, print_reply};
pub use reply::Reply;
pub use word_row::{LineName, LineNames};

mod bytes;
mod call;
mod call_word;
mod group_call;
mod group_reply;
mod group_word;
mod names;
mod pairs;
mod parse;
mod print;
mod reply;
mod word_row;
