// Scans over the lent lease table. The form of the table has a scan of its own. One scan serves all that
// is looked for: its test and how a record is noted are each module's own.

#![tactic(auto)]

pub mod client;
pub mod form;
pub mod look;
pub mod record;
pub mod scanning;
