//! Operations that are put into a procedure of middle code and only set temporaries of their own,
//! as the copies of bases are that rows name: they change nothing of its run.
#![tactic(auto)]

mod laws;

pub use laws::additions_follow;
