// Records of rounds that carry their own evidence: filing, checking and clearing. Each of these calls states the law of evidence itself, since a
// caller looks at one call.
#![tactic(auto)]

pub mod check;
pub mod evidence;
pub mod file;
pub mod levelled;
pub mod passed;
pub mod record_network;
pub mod sheet;
