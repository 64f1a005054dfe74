//! A lock whose holders act in turns on one value, and whose passes know how its history began.
//!
//!     let (lock, pass) = TurnLock::start(rt.alloc(), book)?;
//!     let (mut pass, others) = lock.split(pass);
//!     let answer = lock.turn_mut(&rt, &mut pass, me, Import { advisory });
//!
//! One call is one turn: the value leaves its slot, one [`Call`] acts on it, and it is put back. A pass has seen the
//! history as it was after its last turn, and every later turn finds a history that begins with it.
#![tactic(auto)]

mod call;
mod lock;
mod note;
mod rule;
mod stored;
mod tickets;
mod view;

pub use call::Call;
pub use lock::{Pass, TurnLock};
pub use note::{Last, Note, Noted};
pub use stored::Stored;
pub use view::View;
