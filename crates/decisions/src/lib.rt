// What the calls decide (01, "What each call does"), on small values: what changes at a station, and whose rows lose whom. Which number turns an
// event down is `refusing`, where the tracer goes `tracing`, and what the receiver of a request or a reply does `station`.
#![tactic(auto)]

pub mod changing;
pub mod cutting;
