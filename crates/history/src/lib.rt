// The causal history of a run of calls, and the law by which it tells what every panel holds.
#![tactic(auto)]

ghost use Rattle.history.specs.Law.{StoresFollowHistory};

pub mod lending;
pub mod panels;
pub mod perform;
pub mod request;
#[cfg(test)]
mod tests;

// At every point of every run each panel holds what the acts that reached it say, syncs leave conflicts exactly where
// neither side prevails, and a sync back leaves both panels alike. Nothing runs here: the contract is the law.
pub fn stores_follow_history()
    ensures { StoresFollowHistory }
{}
