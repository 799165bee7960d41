// What the commands of `rpr` share: the words behind their names, the files that they read, the lines that they say on standard error, and their exit statuses.
#![tactic(auto)]

mod behind;
pub mod files;
mod host;
mod place;
pub mod status;
pub mod tell;
pub mod words;

pub use behind::Behind;
pub use host::{Host, Source};
