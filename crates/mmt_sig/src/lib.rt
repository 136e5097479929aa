//! The signalling payload with its messages, and the messages that the project reads and writes:
//! the PA message with its tables and the buffer message (ISO/IEC 23008-1, signalling messages).
#![tactic(auto)]

mod head;
mod message;
mod messages;
mod pa;
mod payload;
mod reading;
mod reading_messages;
mod reading_tables;
mod table;
mod tables;
mod writing;

pub use head::{SigHead, SigWhy};
pub use message::MessageWhy;
pub use messages::Messages;
pub use pa::Pa;
pub use payload::SigPayload;
pub use reading::read_sig;
pub use reading_messages::{Message, read_message};
pub use table::Table;
pub use tables::Tables;
pub use writing::{write_hrbm, write_pa, write_sig};

#[cfg(test)]
mod tests;
